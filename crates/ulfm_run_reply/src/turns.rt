//! The turns of a job.
ghost use Rattle.std.specs.Prelude.{◌≡◌};
ghost use Rattle.ulfm_run_reply.specs.Played.{given_turns};
ghost use Rattle.ulfm_command_line.specs.CommandLine.{AreTurns};

use ulfm_reader::Reading;

/// What a text asks for, its job with the turns of the command line, where they are given.
pub fn given_turns(asked: Reading, turns: Option<u32>) -> Reading
    requires { AreTurns turns }
    ensures { result ≡ record asked { job = given_turns turns asked.job } }
{
    match turns {
        Some(turns) => {
            let Reading {
                job,
                never,
                texts,
                names,
                filed,
                provisos,
            } = asked;
            let job = job.with_turns(turns);
            Reading {
                job,
                never,
                texts,
                names,
                filed,
                provisos,
            }
        }
        None => asked,
    }
}
