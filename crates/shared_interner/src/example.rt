//! An example: two threads intern one text, and it is proved that they get one symbol.
ghost use Rattle.std.specs.Prelude.{◌≡◌, IfOk};
ghost use Rattle.shared_interner.specs.Naming.{IsNamed};

use crate::interning::SharedInterner;
use crate::names::KnownNames;
use crate::symbol::Symbol;
use std::alloc::{AllocError, Global};
use std::marker::{Send, Sync};
use std::thread::{Threads, join};
use table_cell::Low;

/// A symbol that a thread was given, and what its handle knew then.
#[derive(Drop)]
pub struct Given<A: Low + Copy = Global> {
    pub symbol: Symbol,
    pub known: KnownNames<A>,
}

/// Interns the text by a handle of its own. `Err`: memory was refused, or no symbol is left.
fn intern<A: Low + Copy>(interner: &SharedInterner<A>, text: &str) -> Result<Given<A>, AllocError>
    ensures of { IfOk result (λ g. g.known.of ≡ interner.now.of) }
    ensures named { IfOk result (λ g. IsNamed g.known.history g.symbol text.now) }
{
    let mut names = interner.names();
    let symbol = names.intern(text)?;
    let known = names.tell();
    Ok(Given { symbol, known })
}

/// Lets two threads intern the text, and returns the symbol that both were given. `Err`: memory was refused, or no symbol is left.
pub fn intern_by_two<A: Low + Copy + Send + Sync, R: Threads>(
    rt: &R,
    interner: &SharedInterner<A>,
    text: &str,
) -> Result<(Given<A>, Symbol), AllocError>
    ensures of { IfOk result (λ r. r.0.known.of ≡ interner.now.of) }
    ensures named { IfOk result (λ r. IsNamed r.0.known.history r.0.symbol text.now) }
    ensures same { IfOk result (λ r. r.1 ≡ r.0.symbol) }
{
    let (one, other) = join(
        rt,
        || -> Result<Given<A>, AllocError>
            ensures of { IfOk result (λ g. g.known.of ≡ interner.entry.now.of) }
            ensures named { IfOk result (λ g. IsNamed g.known.history g.symbol text.entry.now) }
        { intern(interner, text) },
        || -> Result<Given<A>, AllocError>
            ensures of { IfOk result (λ g. g.known.of ≡ interner.entry.now.of) }
            ensures named { IfOk result (λ g. IsNamed g.known.history g.symbol text.entry.now) }
        { intern(interner, text) },
    );
    let one = one?;
    let other = other?;
    let mut names = interner.names();
    names.hear(&one.known);
    names.hear(&other.known);
    names.apart();
    Ok((
        Given {
            symbol: one.symbol,
            known: names.tell(),
        },
        other.symbol,
    ))
}
