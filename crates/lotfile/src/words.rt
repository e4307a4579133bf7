// The words of a lot and of a file's end, and their bytes.
ghost use Rattle.std.specs.Prelude.{◌≡◌, ◌<◌, IfOk};
ghost use Rattle.std.specs.List.{flat_map};
ghost use Rattle.std.specs.Result.{result_err};
ghost use Rattle.lots.specs.Lots.{terms};
ghost use Rattle.lotfile.specs.LotWords.{kind_of_lot, pairs, words_of_lot, end_words, words_bytes};
ghost use Rattle.lotfile.specs.Writing.{count_refused};

use crate::fault::WriteFault;
use lots::{Lot, LotKind, Word, WordKind};

// A function and no `From`: both types are of the crate `lots`, where a word's kind has no meaning yet.
fn first_kind(kind: LotKind) -> WordKind
    ensures { result ≡ kind_of_lot kind }
{
    match kind {
        LotKind::Frozen => WordKind::One,
        LotKind::Closing => WordKind::Two,
    }
}

// A word that carries nothing but a number.
fn plain(number: u32) -> Word
    requires { number < 1073741824 }
    ensures { (result.kind ≡ WordKind.Zero) × (result.number ≡ number) }
{
    Word {
        kind: WordKind::Zero,
        number,
    }
}

fn lot_words(lot: Lot) -> [Word; 6]
    ensures { pairs result ≡ words_of_lot (terms lot) }
{
    [
        Word {
            kind: first_kind(lot.kind),
            number: lot.from,
        },
        plain(lot.through),
        plain(lot.amount),
        plain(lot.evidence),
        plain((lot.cost / (1 << 30)) as u32),
        plain((lot.cost % (1 << 30)) as u32),
    ]
}

// The six words of a lot, each as its bytes.
pub(crate) fn lot_bytes(lot: Lot) -> [[u8; 4]; 6]
    ensures { flat_map (λ x. x) result ≡ words_bytes (words_of_lot (terms lot)) }
{
    lot_words(lot).map(Word::to_bytes)
}

// The word at the end of a file of so many lots, if they are not too many.
pub(crate) fn end_bytes(count: usize) -> Result<[u8; 4], WriteFault>
    ensures told { result_err result ≡ count_refused count }
    ensures bytes { IfOk result (λ bytes. bytes ≡ words_bytes (end_words count)) }
{
    if count > 10_000 {
        return Err(WriteFault::TooMany);
    }
    let end = Word {
        kind: WordKind::Three,
        number: count as u32,
    };
    Ok(end.to_bytes())
}
