ghost use Rattle.std.specs.Prelude.{option_to_list};
ghost use Rattle.theory.specs.Endings.{finished_feed};

use crate::fault::FeedFault;
use crate::feed::Feed;
use crate::netting::Netting;
use crate::orders::OrderFeed;
use crate::receipt::Receipt;
use crate::text::TextFeed;
use lots::Refusal;
use std::alloc::Global;
use std::process::Abort;
use std::test::Fail;

// The second call tells what the first told, and each tells the fault of this number at this place and period.
fn fails<F: Feed + Drop>(
    rt: &impl Abort,
    mut feed: F,
    number: u32,
    place: usize,
    period: u32,
) -> Result<(), Fail> {
    for _ in 0..2 {
        let Err(fault) = feed.next() else {
            return Err(Fail::new("no fault"));
        };
        assert_eq!(rt; fault.number(), number);
        assert_eq!(rt; fault.place(), place);
        assert_eq!(rt; fault.period(), period);
        assert_eq!(rt; fault.layers(), 0);
    }
    Ok(())
}

#[test]
fn text_hands_out_its_demands(rt: HostRuntime) -> Result<(), Fail> {
    let mut feed = TextFeed::new(b"1,4\n2,3\n3,8\n4,2\n5,9\nend\n");
    for demand in [4, 3, 8, 2, 9] {
        assert_eq!(rt; feed.next()?, Some(demand));
    }
    assert_eq!(rt; feed.next()?, None);
    assert_eq!(rt; feed.next()?, None);
    assert_eq!(rt; feed.place(), 20);
    Ok(())
}

#[test]
fn text_tells_each_fault(rt: HostRuntime) -> Result<(), Fail> {
    fails(&rt, TextFeed::new(b""), 12, 0, 1)?;
    fails(&rt, TextFeed::new(b"end\n\n"), 13, 4, 1)?;
    fails(&rt, TextFeed::new(b"end"), 9, 0, 1)?;
    fails(&rt, TextFeed::new(b"1,04\nend\n"), 9, 0, 1)?;
    fails(&rt, TextFeed::new(b"1,4"), 9, 0, 1)?;
    fails(&rt, TextFeed::new(b"1,12345678\n"), 9, 0, 1)?;
    fails(&rt, TextFeed::new(b"2,9999999\n"), 10, 0, 1)?;
    fails(&rt, TextFeed::new(b"1,1000001\n"), 11, 0, 1)
}

#[test]
fn text_tells_a_later_fault(rt: HostRuntime) -> Result<(), Fail> {
    let mut feed = TextFeed::new(b"1,1000000\n2,0\n");
    assert_eq!(rt; feed.next()?, Some(1_000_000));
    assert_eq!(rt; feed.next()?, Some(0));
    fails(&rt, feed, 12, 14, 3)
}

#[test]
fn orders_less_cancellations(rt: HostRuntime) -> Result<(), Fail> {
    let mut feed = OrderFeed::new(b"\x80\0\0\x01\0\0\0\x07\x40\0\0\x02\xc0\0\0\x01");
    assert_eq!(rt; feed.next()?, Some(5));
    assert_eq!(rt; feed.next()?, None);
    assert_eq!(rt; feed.place(), 12);
    Ok(())
}

#[test]
fn orders_at_their_edges(rt: HostRuntime) -> Result<(), Fail> {
    // An order of 1,000,000 and its cancellation, then an order of 1,000,000.
    let mut feed = OrderFeed::new(
        b"\x80\0\0\x01\0\x0f\x42\x40\x40\x0f\x42\x40\x80\0\0\x02\0\x0f\x42\x40\xc0\0\0\x02",
    );
    assert_eq!(rt; feed.next()?, Some(0));
    assert_eq!(rt; feed.next()?, Some(1_000_000));
    assert_eq!(rt; feed.next()?, None);
    Ok(())
}

#[test]
fn orders_tell_each_fault(rt: HostRuntime) -> Result<(), Fail> {
    fails(&rt, OrderFeed::new(b""), 12, 0, 1)?;
    fails(&rt, OrderFeed::new(b"\x80\0\0"), 14, 0, 1)?;
    fails(&rt, OrderFeed::new(b"\x80\0\0\x01"), 12, 4, 1)?;
    fails(&rt, OrderFeed::new(b"\x80\0\0\x01\xc0"), 14, 4, 1)?;
    fails(&rt, OrderFeed::new(b"\0\0\0\x01"), 15, 0, 1)?;
    fails(&rt, OrderFeed::new(b"\x40\0\0\x01"), 15, 0, 1)?;
    fails(&rt, OrderFeed::new(b"\x80\0\0\x02"), 10, 0, 1)?;
    fails(
        &rt,
        OrderFeed::new(b"\x80\0\0\x01\0\x0f\x42\x41\x40\0\0\x01"),
        11,
        4,
        1,
    )?;
    fails(
        &rt,
        OrderFeed::new(b"\x80\0\0\x01\0\0\0\x01\x40\0\0\x02"),
        16,
        8,
        1,
    )?;
    fails(&rt, OrderFeed::new(b"\xc0\0\0\x01"), 17, 0, 1)?;
    fails(&rt, OrderFeed::new(b"\xc0\0\0\0\0"), 13, 4, 1)
}

#[test]
fn a_period_is_handed_out_before_its_follower_is_checked(rt: HostRuntime) -> Result<(), Fail> {
    let mut feed = OrderFeed::new(b"\x80\0\0\x01\0\0\0\x07\x80\0\0\x03");
    assert_eq!(rt; feed.next()?, Some(7));
    fails(&rt, feed, 10, 8, 2)
}

fn layer<F: Drop>(
    heap: Global,
    feed: F,
    stock: u64,
    receipts: &[Receipt],
) -> Result<Netting<F>, Fail> {
    let receipts = Vec::from_slice(heap, receipts)?;
    let Ok(net) = Netting::new(feed, stock, receipts) else {
        return Err(Fail::new("refused"));
    };
    Ok(net)
}

#[test]
fn stock_and_receipts_are_spent(rt: HostRuntime) -> Result<(), Fail> {
    let heap = rt.alloc();
    let gross = b"1,3\n2,4\n3,1\n4,0\n5,9\nend\n";
    let mut stocked = layer(heap, TextFeed::new(gross), 5, &[])?;
    for demand in [0, 2, 1, 0, 9] {
        assert_eq!(rt; stocked.next()?, Some(demand));
    }
    assert_eq!(rt; stocked.next()?, None);
    // One receipt comes where nothing is asked, and one after the last period.
    let receipts = [
        Receipt {
            period: 2,
            amount: 4,
        },
        Receipt {
            period: 4,
            amount: 7,
        },
        Receipt {
            period: 6,
            amount: 1,
        },
    ];
    let mut supplied = layer(heap, TextFeed::new(gross), 0, &receipts)?;
    for demand in [3, 0, 1, 0, 2] {
        assert_eq!(rt; supplied.next()?, Some(demand));
    }
    assert_eq!(rt; supplied.next()?, None);
    Ok(())
}

#[test]
fn layers_stack(rt: HostRuntime) -> Result<(), Fail> {
    let heap = rt.alloc();
    let lowest = layer(heap, TextFeed::new(b"1,9\n2,9\n"), 2, &[])?;
    let middle = layer(
        heap,
        lowest,
        3,
        &[Receipt {
            period: 2,
            amount: 1,
        }],
    )?;
    let mut top = layer(heap, middle, 1_000_000_000, &[])?;
    assert_eq!(rt; top.next()?, Some(0));
    assert_eq!(rt; top.next()?, Some(0));
    let Err(fault) = top.next() else {
        return Err(Fail::new("no fault"));
    };
    assert_eq!(rt; fault.number(), 12);
    assert_eq!(rt; fault.place(), 8);
    assert_eq!(rt; fault.period(), 3);
    assert_eq!(rt; fault.layers(), 3);
    assert_eq!(rt; top.place(), 8);
    Ok(())
}

// The number by which this stock and these receipts are refused; the feed comes back and still hands out its demand.
fn refusal(rt: &impl Abort, heap: Global, stock: u64, receipts: &[Receipt]) -> Result<u32, Fail> {
    let receipts = Vec::from_slice(heap, receipts)?;
    let Err(mut refused) = Netting::new(TextFeed::new(b"1,7\nend\n"), stock, receipts) else {
        return Err(Fail::new("made"));
    };
    assert_eq!(rt; refused.feed.next()?, Some(7));
    Ok(refused.fault.number())
}

#[test]
fn netting_refuses(rt: HostRuntime) -> Result<(), Fail> {
    let heap = rt.alloc();
    let late = Receipt {
        period: 2,
        amount: 1,
    };
    let large = Receipt {
        period: 1,
        amount: 1_000_000_001,
    };
    assert_eq!(rt; refusal(&rt, heap, 1_000_000_001, &[late, large])?, 8);
    assert_eq!(rt; refusal(&rt, heap, 0, &[late; 33])?, 4);
    assert_eq!(rt; refusal(&rt, heap, 0, &[late, large])?, 5);
    assert_eq!(rt;
        refusal(
            &rt,
            heap,
            0,
            &[Receipt {
                period: 0,
                amount: 1,
            }],
        )?,
        5
    );
    assert_eq!(rt; refusal(&rt, heap, 0, &[large, late])?, 7);
    Ok(())
}

// A feed of one demand at most. It is small because it is a byte, and nothing else says so.
#[derive(Drop)]
struct Once {
    left: Option<u8>,
}

impl Feed for Once {
    ghost demands = { λ f. option_to_list f.left };

    ghost ending = { λ f. finished_feed };

    ghost reached = { λ f. 0 };

    fn next(&mut self) -> Result<Option<u32>, FeedFault> {
        match self.left {
            Some(demand) => {
                self.left = None;
                Ok(Some(u32::from(demand)))
            }
            None => Ok(None),
        }
    }

    fn place(&self) -> usize {
        0
    }
}

#[test]
fn a_byte_is_a_small_demand(rt: HostRuntime) -> Result<(), Fail> {
    let mut feed = Once { left: Some(7) };
    assert_eq!(rt; feed.next()?, Some(7));
    assert_eq!(rt; feed.next()?, None);
    Ok(())
}
