//! What help says beside the commands and their options.

/// What is shown above the commands: the one question to ask.
pub const ABOUT: &str = "Does your MPI recovery hang? Write what each rank calls as a job, and ask:

  ulfm outcomes --stops 1 job.toml

It lists what each call may return, wherever one rank dies, in every schedule, and which calls never end.";

/// What is shown below the commands.
pub const HELP: &str =
    "A job is a TOML text, in the files that are named, or else on standard input:

  ranks = 2
  capacity = 4
  turns = 10

  [[step]]
  rank = 0
  op = \"send\"
  to = 1
  tag = 5
  body = \"abc\"

  [[step]]
  rank = 1
  op = \"recv\"
  from = 0

  [[step]]
  rank = 1
  op = \"wait\"
  req = 0

Under run a step's polls come fast: give a job many turns, as 1000000.
Statuses: 0 done, 1 job refused, 2 usage, 3 run failed, 4 output failed, 5 input failed;
6 by --strict alone, where a step is unfinished: MPI would hang there;
7 by outcomes alone, past its limit; 8 by outcomes --show alone, no schedule;
9 an answer isn't as its step expects, or what must not go together came.
docs/JOBS.md has the format of jobs, docs/COMMANDS.md that of traces, docs/RULES.md the rules that ranks obey.";
