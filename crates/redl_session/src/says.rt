//! The says of a book: what its verdicts come to.
ghost use Rattle.std.specs.Prelude.{◌≡◌, length, IfOk};
ghost use Rattle.redl_session.specs.Says.{say_of_verdict, says_of, verdicts_of};

use redl_join::{Book, Verdict};
use redl_tree::Say;
use std::alloc::{AllocError, Global};

/// The say of a verdict. Disputed and open revisions are kept.
pub fn say_of(verdict: Verdict) -> Say
    ensures { result ≡ say_of_verdict verdict }
{
    match verdict {
        Verdict::Undecided | Verdict::Disputed => Say::Keep,
        Verdict::Accept => Say::Accept,
        Verdict::Reject => Say::Reject,
    }
}

// Sets each say to that of the book's verdict. The first is that of revision 1.
fn decide(book: &Book, says: &mut Vec<Say>, count: u32)
    requires { length says.old.items ≡ count }
    ensures { says.new.items ≡ says_of book.now count }
{
    for before in 0..count {
        says[before as usize] = say_of(book.verdict(before + 1));
    }
}

/// The says of a book for the revisions 1 to `count` of a package: those of its verdicts. `Err` means out of memory.
pub fn book_says(alloc: Global, book: &Book, count: u32) -> Result<Vec<Say>, AllocError>
    ensures { IfOk result (λ says. says.items ≡ says_of book.now count) }
{
    let mut says = vec![in alloc; Say::Keep; count as usize]?;
    decide(book, &mut says, count);
    Ok(says)
}

/// The verdicts on the revisions 1 to `count`. `Err` means out of memory.
pub fn verdicts(alloc: Global, book: &Book, count: u32) -> Result<Vec<Verdict>, AllocError>
    ensures { IfOk result (λ verdicts. verdicts.items ≡ verdicts_of book.now count) }
{
    let mut verdicts = Vec::with_capacity(alloc, count as usize)?;
    for before in 0..count {
        verdicts.push(book.verdict(before + 1))?;
    }
    Ok(verdicts)
}
