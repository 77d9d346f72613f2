//! Numbers of steps beside a stop.
ghost use Rattle.std.specs.Prelude.{◌≡◌, ◌≤◌, IfOk, map};
ghost use Rattle.ulfm_job.specs.Job.{moved_clause, moved_number};
ghost use Rattle.ulfm_job.specs.Place.{before};

use crate::Clause;
use crate::stop::Stop;
use std::alloc::Global;
use ulfm_base::OutOfMemory;

impl Stop {
    /// The number that a step of its rank has beside the stop, where the rank has `len` steps without it.
    pub fn number(self, len: usize, number: u16) -> u16
        requires { len ≤ 256 }
        ensures { result ≡ moved_number (before self) len number }
    {
        if self.before() <= number as usize && (number as usize) < len {
            number + 1
        } else {
            number
        }
    }

    /// Clauses by the numbers that steps have beside the stop, where its rank has `len` steps without it.
    pub fn clauses(
        self,
        alloc: Global,
        len: usize,
        clauses: &[Clause],
    ) -> Result<Vec<Clause>, OutOfMemory>
        requires { len ≤ 256 }
        ensures { IfOk result (λ moved. moved.items ≡ map (moved_clause self.rank (before self) len) clauses.now) }
    {
        let mut moved = Vec::new(alloc);
        for clause in clauses {
            moved.push(self.clause(alloc, len, clause)?)?;
        }
        Ok(moved)
    }

    /// One clause by these numbers.
    fn clause(self, alloc: Global, len: usize, clause: &Clause) -> Result<Clause, OutOfMemory>
        requires { len ≤ 256 }
        ensures { IfOk result (λ moved. moved ≡ moved_clause self.rank (before self) len clause.now) }
    {
        let mut moved = clause.copy(alloc)?;
        if moved.rank == self.rank {
            moved.at = self.number(len, moved.at);
            moved.step = self.number(len, moved.step);
        }
        Ok(moved)
    }
}
