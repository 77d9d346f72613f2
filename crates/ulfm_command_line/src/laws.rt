//! What is asked for without a stop.
ghost use Rattle.std.specs.Prelude.{◌≡◌, ℕ, true, List, [], Ok};
ghost use Rattle.ulfm_job.specs.Places.{own_stops};
ghost use Rattle.ulfm_job.specs.declared.place.Place.TheVariants.{Nowhere};
ghost use Rattle.ulfm_reader.specs.Goals.{goals_of, goals_of_bytes};
ghost use Rattle.ulfm_reader.specs.JobText.{job_of_bytes, never_of_bytes};
ghost use Rattle.ulfm_reader.specs.Plan.{plan_of};
ghost use Rattle.ulfm_command_line.specs.Holding.{all_hold, held};
ghost use Rattle.ulfm_command_line.specs.Stopped.{Asked, IsAskedAt, reading_as};

/// Where no rank is stopped, what is asked for is what the bytes ask for, as far as that holds by the own stops of the job. If all of it holds,
/// so does this: the job, the rows. It does where nothing is asked only before a step, and where the job has no stop of its own. The answers that
/// a text names are the same in each case.
pub fn nowhere_is_as_read()
    ensures held { (bytes : List ℕ) (asked : Asked) → (h : IsAskedAt Nowhere bytes asked) → asked ≡ held (own_stops h.read.job) h.read }
    ensures job { (bytes : List ℕ) (asked : Asked) → IsAskedAt Nowhere bytes asked → all_hold asked (own_stops asked.job) ≡ true → job_of_bytes bytes ≡ Ok (plan_of asked.job) }
    ensures rows { (bytes : List ℕ) (asked : Asked) → IsAskedAt Nowhere bytes asked → all_hold asked (own_stops asked.job) ≡ true → never_of_bytes bytes ≡ asked.rows }
    ensures goals { (bytes text : List ℕ) (asked : Asked) → IsAskedAt Nowhere bytes asked → goals_of_bytes bytes text ≡ goals_of (reading_as asked) text }
    ensures anywhere { (asked : Asked) → asked.provisos ≡ [] → all_hold asked (own_stops asked.job) ≡ true }
    ensures unstopped { (asked : Asked) → own_stops asked.job ≡ [] → all_hold asked (own_stops asked.job) ≡ true }
{}
