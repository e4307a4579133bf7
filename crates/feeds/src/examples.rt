ghost use Rattle.feeds.specs.Examples.{FeedExamples};

// The definitions come to the worked examples.
pub fn examples_hold()
    ensures { FeedExamples }
{}
