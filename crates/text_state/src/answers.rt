// The words of an answer.
ghost use Rattle.std.specs.Prelude.{Some};
ghost use Rattle.text_state.specs.Answers.{answer_text};

use refusal::Failure;
use state::Answer;
use std::fmt;
use text_line::Flag;
use text_message::{FailureText, MessageText};

/// What a call answers in words, or why it does not; those of a header or a message tell how many bytes of the input it used.
#[derive(Clone, Copy)]
pub struct AnswerText {
    pub answer: Result<Answer, Failure>,
    pub used: usize,
}

impl fmt::Display for AnswerText {
    ghost output = { λ a. Some (answer_text a.answer a.used) };

    fn fmt<W: fmt::Write>(&self, f: &mut fmt::Formatter<W>) -> fmt::Result {
        let used = self.used;
        match self.answer {
            Ok(Answer::Done) => f.write_str(" ok"),
            Ok(Answer::Served(n)) => write!(f, " ok id {n}"),
            Ok(Answer::Header(far)) => write!(f, " ok header {far} used {used}"),
            Ok(Answer::Message { message, late }) => {
                let message = MessageText(message);
                let late = Flag {
                    name: " late",
                    set: late,
                };
                write!(f, " ok {message}{late} used {used}")
            }
            Err(failure) => {
                let failure = FailureText(failure);
                write!(f, "{failure}")
            }
        }
    }
}
