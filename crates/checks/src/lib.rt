// The numbers given back: the refusals; checks in order, and the number of the first that applies, in `specs/`; and the one test of a port's number.
#![tactic(auto)]

mod refusal;

ghost use Rattle.std.specs.Prelude.{◌≡◌};
ghost use Rattle.checks.specs.Ports.{is_port};

pub use refusal::Refusal;

// Whether a unit of that many ports has a port of that number.
pub fn is_port(ports: u32, port: u32) -> bool
    ensures { result ≡ is_port ports port }
{
    if port < 1 {
        return false;
    }
    port <= ports
}
