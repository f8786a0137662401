// Which bytes of the input an answer takes, and where its payload is among them.
ghost use Rattle.std.specs.Prelude.{◌≡◌};
ghost use Rattle.protocol.specs.Result.{answer_as};
ghost use Rattle.connection_judge.specs.Extent.{extent_in};

use crate::Extent;
use refusal::Failure;
use state::Answer;
use wire_fields::body_length;

// A message that is taken uses 4 bytes plus its length, and its payload follows the 4 bytes; a header uses 8.
pub fn extent_of(answer: Result<Answer, Failure>) -> Extent
    ensures { result ≡ extent_in (answer_as answer) }
{
    match answer {
        Ok(Answer::Header(_)) => Extent {
            used: 8,
            ..Extent::NONE
        },
        Ok(Answer::Message { message, .. }) => {
            let used = 4 + body_length(message) as usize;
            Extent {
                used,
                start: 4,
                end: used,
            }
        }
        Ok(Answer::Done | Answer::Served(_)) | Err(_) => Extent::NONE,
    }
}
