// Which end of the connection a role is.
ghost use Rattle.std.specs.Prelude.{◌≡◌};
ghost use Rattle.wire.specs.Message.{is_client, is_server};

use wire::Role;

pub fn is_server(role: Role) -> bool
    ensures { result ≡ is_server role }
{
    role == Role::Server
}

pub fn is_client(role: Role) -> bool
    ensures { result ≡ is_client role }
{
    role == Role::Client
}
