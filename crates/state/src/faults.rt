//! Why a text is no script, as the script's error.

ghost use Rattle.std.specs.Prelude.{◌≡◌};
ghost use Rattle.state.specs.Prelude.{flaw_of};
ghost use Rattle.state.specs.Faults.{flaw_of_fault};
ghost use Rattle.tclparse.specs.Seen.{fault_of};

use acts::Fault;
use std::alloc::Allocator;

/// Why a text is no script, as the script's error (Tcl(n)).
pub fn no_script<A: Allocator>(fault: tclparse::Fault) -> Fault<A>
    ensures { flaw_of result ≡ flaw_of_fault (fault_of fault) }
{
    match fault {
        tclparse::Fault::OpenBrace => Fault::OpenBrace,
        tclparse::Fault::OpenBracket => Fault::OpenBracket,
        tclparse::Fault::OpenQuote => Fault::OpenQuote,
        tclparse::Fault::AfterBrace => Fault::AfterBrace,
        tclparse::Fault::AfterQuote => Fault::AfterQuote,
        tclparse::Fault::TooDeep => Fault::TooDeep,
        tclparse::Fault::EscapeNotHere => Fault::EscapeNotHere,
        tclparse::Fault::BadVariable => Fault::BadVariable,
    }
}
