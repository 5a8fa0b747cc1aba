//! What the program prints about itself, and the end of each command's help.

/// The version of the program and of the kit that proves it, and the profiles and formats that it
/// reads.
pub const VERSION: &str = "0.52
rattle-kit-13b logic dac8208d650f15bf
profiles 1 and 2, words of 64 and 32 bits";

pub const RUN_EXAMPLE: &str = "Example: `l4run run ping.l4`, where the file ping.l4 has the lines

  l4 1 64
  cpus 1
  thread 1.1 cpu 0 space 1
  set 1 10
  tag 0x70001
  ipc 2.1 nil never never
  thread 2.1 cpu 0 space 2
  ipc nil any never never

prints a line for each step: 1.1 sends the word 10 to 2.1, which waits for anybody.
With `--report` it prints what the two threads have come to in place of it, with `--chart` a chart \
of the steps, as
`l4run help chart` shows it.

Behind that, `--waits` tells who waits for whom, as `waits 1.1 2.1 send`, and which threads wait \
in a circle, as
`circle 1.1 2.1`, or as `deadlock 1.1 2.1` where none of them can go on by any step
of theirs. While one order is undone or one retarget owed, of whatever thread, each is a `circle`.
`held 9.1#1` is a send of time zero that waits until its receiver's call to another processor is \
decided.
`--counts` tells what each thread did, as

  counts 1.1 turns 4 sends 1 delivered 1 received 0 refused 2:0 3:0 4:0 5:0 6:0 7:0

Several processors of a machine text work at the same time, each in a thread of the host. So two \
runs may differ:
each is one that the machine can take. `l4run replay` takes turns in the order that you give: by
`l4run replay ping.l4 --schedule @ping.list` that of a run with `--record ping.list`.

`--expect ping.expected` tells which lines of that file the report does not have, and has behind \
`never`. The name
`-` stands for the standard input, wherever a file is read.

Status 0: nothing is left to do. Threads may still wait for ever: `--report` shows which. 3: turns \
were used up
first. 4: `--expect` is not met. 2: wrong usage. 1: a fault, told in a line on standard error, as \
one of these:

  l4run: line 4: BadNumber             a line of the machine text; `l4run help lint` has the kinds
  l4run: turns out of range
  l4run: expectation line 1: Unknown   also BadLine, BadWord, Deleted, Number
  l4run: cannot read NAME              also cannot write, cannot write NAME, no memory

On a terminal further lines explain it. docs/FORMATS.md tells each line that is printed, and each \
fault.";

pub const REPLAY_EXAMPLE: &str =
    "Example: `l4run replay ping.l4 --schedule 0,0,0`, with the machine text that `l4run help run` \
shows,
prints the steps of three turns of processor 0.

An item 0 to 15 is one turn of that processor, t0 to t15 one tick of its clock to its least \
deadline. A turn
handles a letter first, if one has come. Three items name what else may happen: by 1:0 processor 1
handles the first letter from processor 0, by c1 it takes a turn of its own though letters may be
there, by t0:24 the clock of processor 0 goes on to 24. Where there is nothing to do, there is no
step.

With `--then-rest` it goes on where the list ends, so that the boring end need not be written: in \
rounds of one turn of
each processor, the lowest first, and where a round does nothing, to the next deadline of all. It \
ends where nothing is
left to do, or where the turns are used up. With `--record ping.list` all items, those of the rest \
too, go to that file.

With `--next` it prints what may happen behind the list, in place of the steps: behind `0,0,0` here

  next c0
  begin 1.1#1
  queue 1.1#1
  deliver 1.1#1 2.1 1.1 1.1 70001 a

Each item that is possible has a line, and each step that it would tell. The status is 0 then.

Statuses and faults are those of `run`; with status 3 the list, or the turns, were used up first. \
Faults are also
`l4run: schedule item N`. docs/FORMATS.md (Schedules) tells each item.";

pub const AUDIT_EXAMPLE: &str =
    "Example: `l4run audit ping.l4 ping.trace`, with the machine text that `l4run help run` shows \
and what
`l4run run ping.l4` printed, prints `passed 8 quiet`: these are 8 steps that the machine can take, \
and then nothing
but its clock can go on; `spent` stands there where more can. A trace is refused at its first step \
that is not
possible. Then `--explain` prints why, and which steps are possible instead, as

  because the receiver is not receiving but ready
  possible wait 2.1

and `--report` what the threads have come to before that step. Behind `passed` it prints what they \
have come to in
the end. `--waits` and `--counts` tell of a trace that passes what `l4run help run` says.

Status 0: the trace passed. 2: wrong usage. 1: `l4run: refused at step N`, or `l4run: trace line \
N` where a line
spells no step, or a fault as of `run`. docs/FORMATS.md (Trace lines) tells each line.";

pub const CHART_EXAMPLE: &str =
    "Example: `l4run chart ping.l4 ping.trace`, with the machine text that `l4run help run` shows \
and what
`l4run run ping.l4` printed, prints

   cpu         0 ---------
  step       1.1       2.1
     1         *         |  local 1.1 (line 4: set 1 10)
     2         |         w  wait 2.1 (line 8)
     3         *         :  local 1.1 (line 5: tag 0x70001)
     4         o         :  begin 1.1#1 to 2.1 (line 6)
     5         q         :  queue 1.1#1 to 2.1
     6         +-------->|  deliver 1.1#1 2.1 1.1 1.1 70001 a
     7         |         *  local 2.1
     8         *         |  local 1.1
               _         |  1.1 ended
               |         _  2.1 ended

Below the last step stands what each thread is in behind it, and what it waits for: with `--to 3` \
behind step 3.
There a send that has not arrived is an arrow `+...)`. The line of a thread is dotted where it waits.

With `--registers` there is a line below a step for each thread in which it changes a register, or \
who waits to send
there. Below step 6 these stand:

        1.1: MR0 0x0
        2.1: from 1.1, ActualSender 1.1, MR0 0x70001, MR1 0xa, senders none

With `--fold` steps 1, 3, 7 and 8 are left out.

On a terminal that shows them there are lines in place of these characters, unless `TERM` is dumb. \
Without
`--width` a text is as wide as `COLUMNS` says, else 80. Where a step is not possible, the steps \
before it are
drawn, and the status is 1. Else it is 0, or 1 with a fault as of `audit` or `l4run: threads item \
N`, 2 with wrong
usage. docs/FORMATS.md (Charts) tells each mark.";

pub const ENDINGS_EXAMPLE: &str =
    "Example: `l4run endings ping.l4`, with the machine text that `l4run help run` shows, prints \
each ending once, a
world in which nothing but clocks can go on: whatever the scheduler does, and whatever time passes. \
Its first line tells
how many steps lead there at least, ticks aside; then comes its report. `l4run endings ping.l4 \
--trace 1 >ping.trace`
prints these steps, which `l4run audit` and `l4run chart` read. The last line says how many worlds \
were looked at, how
many steps deep, and whether that is the `whole` or was `cut`: then there may be more endings, and \
the status is 3.
Of `--memory` 128 bytes are counted for each world or state, and 8 for each thread of the text.
Where there is none at all, `no ending: it goes on for ever` stands before it. With `--none`, walks \
at random are tried
before a long search: what one finds is told alone, `found by a walk`.

With `--placed` the first line of an ending has a shortest schedule, which `l4run replay` takes. \
Then `whole` speaks of
some runs alone. `least ticks`: each tick goes to the least deadline of its processor, as `t0` \
does; `l4run run` moves
all clocks to the least deadline of all, and may end as none of these. `in turn`: some processor \
has two threads, which
take their turns in one order, not in every order.

With `--stuck`, `--rests 2.1,3.1` names threads that may rest where they are, as one that waits for \
an interrupt: only
others count.

With `--always 'never thread 1.1 ready .. & thread 2.1 ready ..'` it asks in place of endings \
whether any world on the way
tells all of these lines of a report. It prints `never met`, or `not met: cut`, or `met, steps K` \
and the lines of such a
world, and `--trace 1` how it comes to it.

Status 4: `--none` found one, `--some` found that there is none, a world meets what `--always` \
names, or an ending does
not meet `--expect`. 0: nothing of these, and the search was whole, or `--some` found one. 2: wrong \
usage. 1: a fault as
of `run`, or `l4run: depth out of range`, `l4run: states out of range`, `l4run: memory out of \
range`, `l4run: ending out
of range`, `l4run: condition line N`, `l4run: threads item N`. docs/FORMATS.md (Endings) tells each \
line.";

pub const LINT_EXAMPLE: &str =
    "Example: `l4run lint ping.l4`, with the machine text that `l4run help run` shows but the line \
`set 64 10`,
prints `line 4 column 5: BadNumber: `64`: wanted: a register, 1 to 63`. Each fault has such a \
line: where
it is, its kind, what stands there, and what may. On a terminal it begins with `ping.l4:4:5: `, as \
editors look for
it. The status is 1 then, and 0 where nothing is wrong. Then each doubt has a line. In the place \
of the kind stands
`always` where what it says holds in every run, else `perhaps`; it may be as it is meant. Behind \
that, `--schedule
LIST` tells each faulty item of a list for this machine, with status 1.

Kinds: BadLine, BadNumber, BadId, BadName, BadCpu, TypedItems, DoubleId, TooManyThreads, \
TooManyInstructions,
BadTarget, TooLong. docs/FORMATS.md tells what each of them is.";

pub const STEP_EXAMPLE: &str =
    "Example: `l4run step ping.l4`, with the machine text that `l4run help run` shows, tells what is \
possible at the
opening: each entry with a number, its item, and the steps that it would tell. A line of the standard \
input is one of
these, and each is answered as soon as it is there:

  NUMBER  does the entry of this number, as it was told last
  ITEM    does the entry of this item: cP, P:Q, tP or tP:V, as in a schedule
  back    goes an entry back, back N goes N entries back
  next    tells what is possible
  state   tells the report of the replay so far, as `replay --report` does
  chart   draws the history so far, as `replay --chart` does
  record  tells the list of the entries so far, as `replay --schedule` takes it
  help    tells these lines
  quit    ends, as the end of the input does

What is no such line, or not possible now, is told by a line that begins with `refused`, and changes \
nothing. So
`printf '1\\n1\\nstate\\nrecord\\n' | l4run step ping.l4` prints what the first entry does, twice, the \
report, and last the
list by which `l4run replay` does that again. The status is 0, 1 with a fault as of `run`, 2 with \
wrong usage.";

pub const TWO_FORMS: &str =
    "error: only one of '--ascii', '--svg', '--html' and '--mermaid' can be given

For more information, try '--help'.
";

pub const COLOUR_WORDS: &str = "error: '--color' takes 'auto', 'always' or 'never'

For more information, try '--help'.
";

pub const INPUT_TWICE: &str = "error: the standard input '-' can be named only once

For more information, try '--help'.
";

pub const INPUT_OF_STEPS: &str =
    "error: the standard input has the lines of 'step', so FILE cannot be '-'

For more information, try '--help'.
";

pub const SCHEDULE_OF_RUN: &str =
    "error: a run takes no '--schedule'; a replay does: 'l4run replay FILE --schedule LIST'

For more information, try '--help'.
";

pub const RECORD_AND_EXPECT: &str =
    "error: only one of '--record' and '--expect' can be given; record a run, and expect of its \
replay

For more information, try '--help'.
";

pub const TURNS_ALONE: &str =
    "error: '--turns' of 'replay' goes with '--then-rest'; turns alone are of 'l4run run FILE \
--turns N'

For more information, try '--help'.
";

pub const CHART_BESIDE: &str = "error: '--chart' goes with none of '--report' and '--json'

For more information, try '--help'.
";

pub const REGISTERS_ALONE: &str = "error: '--registers' goes with '--chart'

For more information, try '--help'.
";

pub const NEXT_BESIDE: &str =
    "error: '--next' goes with none of '--then-rest', '--turns', '--report', '--chart', '--waits', \
'--counts', '--record' and '--expect'

For more information, try '--help'.
";

pub const OVER_ITS_FILE: &str =
    "error: the schedule of '--record' can't be written to the file of the machine text

For more information, try '--help'.
";

pub const UNKNOWN_LINE: &str =
    "no line of a report begins so, but each with thread, waiting or ending

For more information, try '--help'.
";

pub const NUMBER_LINE: &str =
    "no number of a send may be asked for, but any send of a thread, as waiting 1.1#* 2.1

For more information, try '--help'.
";

pub const DELETED_LINE: &str =
    "of a deleted thread no more may be asked for than its state, as thread 1.1 deleted ..

For more information, try '--help'.
";

pub const NONE_AND_SOME: &str = "error: only one of '--none' and '--some' can be given

For more information, try '--help'.
";

pub const RESTS_ALONE: &str = "error: '--rests' goes with '--stuck'

For more information, try '--help'.
";

pub const ALWAYS_BESIDE: &str =
    "error: '--always' goes with none of '--placed', '--stuck', '--with', '--never', '--none', \
'--some', '--chart', '--waits' and '--expect'

For more information, try '--help'.
";

pub const TRACE_BESIDE: &str =
    "error: '--trace' goes with none of '--placed', '--some', '--chart', '--waits' and '--expect'

For more information, try '--help'.
";

pub const CHART_AND_JSON: &str = "error: only one of '--chart' and '--json' can be given

For more information, try '--help'.
";
