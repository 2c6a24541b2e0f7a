// The mark of a certificate.
ghost use Rattle.std.specs.Prelude.{◌≡◌};
ghost use Rattle.path_search.specs.Kinds.{IsMarked, SaysOne};
ghost use Rattle.path_search.specs.Unmarked.{marked};

use code_flow_answer::Kind;
use code_flow_system::{Cert, Flow, Mark};

/// A certificate with a mark, the bound and a flow.
pub fn marked(cert: Cert, mark: Mark, cycles: u64, flow: Flow) -> Cert
    ensures { result ≡ marked cert mark cycles flow }
{
    let mut cert = cert;
    cert.mark = mark;
    cert.cycles = cycles;
    cert.flow = flow;
    cert
}

/// What a certificate's mark says.
pub fn kind_of(mark: Mark) -> Kind
    requires { SaysOne mark }
    ensures { IsMarked result mark }
{
    match mark {
        Mark::Greatest => Kind::Greatest,
        Mark::Empty => Kind::Empty,
        Mark::Neither => Kind::Empty,
    }
}
