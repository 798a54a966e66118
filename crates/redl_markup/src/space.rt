//! White space: the four bytes that XML takes for it, and a run of them.

ghost use Rattle.std.specs.Prelude.{◌≡◌};
ghost use Rattle.redl_grammar.specs.Characters.{is_space};
ghost use Rattle.redl_reading.specs.Lists.{front, after};

use redl_reading::run;

#[tactic(auto, unfolding(redl_grammar::specs::Characters::is_space))]
#[inline(always)]
pub(crate) fn is_space(b: u8) -> bool
    ensures { result ≡ is_space b }
{
    // most bytes that are tested are above these
    b <= b' ' && matches!(b, b' ' | b'\t' | b'\r' | b'\n')
}

/// The leading white space, and the bytes after it.
#[inline(always)]
pub(crate) fn spaces(bytes: &[u8]) -> (&[u8], &[u8])
    ensures front { result.0.now ≡ front is_space bytes.now }
    ensures rest { result.1.now ≡ after is_space bytes.now }
{
    run(bytes, |b| is_space(b))
}
