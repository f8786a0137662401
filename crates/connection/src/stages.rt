// What the stage of a connection says: the role, whether the headers are exchanged, and the starting rations.
ghost use Rattle.std.specs.Prelude.{◌≡◌};
ghost use Rattle.protocol.specs.Connection.{role_of, exchanged as connection_exchanged, own_start, far_number, far_start};

use ration::Ration;
use state::{Connection, Stage};
use wire::Role;

pub fn role_of(stage: Stage) -> Role
    ensures { result ≡ role_of stage }
{
    match stage {
        Stage::Fresh(role) | Stage::Up(role, _) => role,
        Stage::Started => Role::Client,
    }
}

// Whether the headers are exchanged.
pub fn exchanged(stage: Stage) -> bool
    ensures { result ≡ connection_exchanged stage }
{
    matches!(stage, Stage::Up(_, _))
}

fn far_number(stage: Stage) -> u16
    ensures { result ≡ far_number stage }
{
    match stage {
        Stage::Up(_, far) => far,
        Stage::Fresh(_) | Stage::Started => 0,
    }
}

// The starting ration that our header grants.
pub fn own_start(c: Connection) -> Ration
    ensures { result ≡ own_start c }
{
    Ration::from_header(c.own)
}

// The starting ration that the far header grants.
pub fn far_start(c: Connection) -> Ration
    ensures { result ≡ far_start c }
{
    Ration::from_header(far_number(c.stage))
}
