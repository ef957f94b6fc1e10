//! The program's commands and options, as clap explains them.
ghost use Rattle.std.specs.Prelude.{◌≡◌, [], ◌∷◌, ◌++◌, IfOk, IsOkAnd, Some, codes, false, true};
ghost use Rattle.clap.specs.Words.{AddsArg, AddsSubcommand, Shape, app_of, new_rule, rule_of, shape_of};
ghost use Rattle.clap.specs.declared.builder.command.Command.TheViews.{out-Command as fields_of};
ghost use Rattle.clap.specs.Simple.{new_shape};
ghost use Rattle.mpx_words.specs.Usage.{bare_usage, common, flag, plain, run, run_draws, run_flags, usage, valued};

use clap::{Arg, ArgAction, Command};
use std::alloc::{AllocError, Global};

pub(crate) fn program<'a>(alloc: Global) -> Result<Command<'a>, AllocError>
    ensures { IfOk result (λ c. app_of c ≡ usage) }
{
    with_command(
        with_command(with_command(bare_program(alloc), run(alloc)), eval(alloc)),
        check(alloc),
    )
}

// The program with one command more, where both could be made.
fn with_command<'a>(
    program: Result<Command<'a>, AllocError>,
    made: Result<Command<'a>, AllocError>,
) -> Result<Command<'a>, AllocError>
    ensures { IfOk result (λ c. IsOkAnd program.entry (λ p. IsOkAnd made.entry (λ m. AddsSubcommand p m c))) }
{
    match program {
        Ok(program) => with_made(program, made),
        Err(e) => {
            drop(made);
            Err(e)
        }
    }
}

fn with_made<'a>(
    program: Command<'a>,
    made: Result<Command<'a>, AllocError>,
) -> Result<Command<'a>, AllocError>
    ensures { IfOk result (λ c. IsOkAnd made.entry (λ m. AddsSubcommand program.entry m c)) }
{
    match made {
        Ok(command) => program.subcommand(command),
        Err(e) => {
            drop(program);
            Err(e)
        }
    }
}

// A command with one option more, where it could be made.
fn with_option<'a>(
    made: Result<Command<'a>, AllocError>,
    option: Arg<'a>,
) -> Result<Command<'a>, AllocError>
    ensures { IfOk result (λ c. IsOkAnd made.entry (λ m. AddsArg m option.entry c)) }
{
    match made {
        Ok(command) => command.arg(option),
        Err(e) => {
            drop(option);
            Err(e)
        }
    }
}

// A command with one flag more, where it could be made.
fn with_flag<'a>(
    alloc: Global,
    made: Result<Command<'a>, AllocError>,
    name: &'a str,
    help: &'a str,
) -> Result<Command<'a>, AllocError>
    ensures shape { (s : Shape) → IfOk made.entry (λ m. shape_of m ≡ s) → IfOk result (λ c. shape_of c ≡ record s { rules = s.rules ++ flag name.entry.now ∷ [] }) }
    ensures local { IfOk made.entry (λ m. (fields_of m).has_globals ≡ false) → IfOk result (λ c. (fields_of c).has_globals ≡ false) }
{
    with_option(made, flag(alloc, name, help))
}

// A command with one more option that is followed by a value, where it could be made.
fn with_valued<'a>(
    alloc: Global,
    made: Result<Command<'a>, AllocError>,
    name: &'a str,
    help: &'a str,
) -> Result<Command<'a>, AllocError>
    ensures shape { (s : Shape) → IfOk made.entry (λ m. shape_of m ≡ s) → IfOk result (λ c. shape_of c ≡ record s { rules = s.rules ++ valued name.entry.now ∷ [] }) }
    ensures local { IfOk made.entry (λ m. (fields_of m).has_globals ≡ false) → IfOk result (λ c. (fields_of c).has_globals ≡ false) }
{
    with_option(made, option(alloc, name, help))
}

/// The command of that name by itself, for its usage; the whole program, where there is none.
pub(crate) fn named<'a>(alloc: Global, name: &[u8]) -> Result<Command<'a>, AllocError> {
    if name == b"run".as_slice() {
        return run(alloc)?.bin_name("gossipmpi run");
    }
    if name == b"eval".as_slice() {
        return eval(alloc)?.bin_name("gossipmpi eval");
    }
    if name == b"check".as_slice() {
        return check(alloc)?.bin_name("gossipmpi check");
    }
    program(alloc)
}

const EVAL: &str = "Print what the standard gives each rank (gossipmpi eval < SCRIPT)";

const CHECK: &str = "Count the ranks and statements of a script (gossipmpi check < SCRIPT)";

// The program without its commands.
fn bare_program<'a>(alloc: Global) -> Result<Command<'a>, AllocError>
    ensures app { IfOk result (λ c. app_of c ≡ bare_usage) }
{
    Command::new(alloc, "gossipmpi")
        .about("Run, evaluate or check a script of MPI collectives for up to 64 ranks")
        .version("0.2.0")
        .subcommand_required(true)
        .arg_required_else_help(true)
        .bin_name("gossipmpi")
}

fn run<'a>(alloc: Global) -> Result<Command<'a>, AllocError>
    ensures shape { IfOk result (λ c. shape_of c ≡ run) }
    ensures local { IfOk result (λ c. (fields_of c).has_globals ≡ false) }
{
    with_valued(
        alloc,
        with_valued(
            alloc,
            with_valued(alloc, with_draws(alloc), "relays", RELAYS),
            "turns",
            TURNS,
        ),
        "workers",
        WORKERS,
    )
}

// `run` with its flags, and with what it draws from.
fn with_draws<'a>(alloc: Global) -> Result<Command<'a>, AllocError>
    ensures shape { IfOk result (λ c. shape_of c ≡ record (new_shape (codes "run")) { rules = run_draws }) }
    ensures local { IfOk result (λ c. (fields_of c).has_globals ≡ false) }
{
    with_valued(
        alloc,
        with_valued(alloc, with_run_flags(alloc), "seed", SEED),
        "loss",
        LOSS,
    )
}

// `run` without the options that are followed by a number.
fn with_run_flags<'a>(alloc: Global) -> Result<Command<'a>, AllocError>
    ensures shape { IfOk result (λ c. shape_of c ≡ record (new_shape (codes "run")) { rules = run_flags }) }
    ensures local { IfOk result (λ c. (fields_of c).has_globals ≡ false) }
{
    with_flag(
        alloc,
        with_flag(
            alloc,
            with_flag(alloc, helped_run(alloc), "trace", TRACE),
            "table",
            TABLE,
        ),
        "threads",
        THREADS,
    )
}

// `run` with the options of each command alone, and with an example and the statuses after these.
fn helped_run<'a>(alloc: Global) -> Result<Command<'a>, AllocError>
    ensures shape { IfOk result (λ c. shape_of c ≡ plain (codes "run")) }
    ensures local { IfOk result (λ c. (fields_of c).has_globals ≡ false) }
{
    match plain(alloc, "run", RUN, STRICT, EXPLAIN) {
        Ok(command) => Ok(command.after_help(AFTER_HELP)),
        Err(e) => Err(e),
    }
}

const RUN: &str = "Run a script (gossipmpi run < SCRIPT) and print what each rank gets";

const AFTER_HELP: &str = "\
Example:
  printf 'ranks 2\\n*: allreduce world sum i32 1\\n' | gossipmpi run --loss 20

Exit status: 0 all ranks finished; 1 usage or help; 2 script refused;
3 ranks wait; 4 out of memory; 5 read or write failed; 6 see --strict";

fn eval<'a>(alloc: Global) -> Result<Command<'a>, AllocError>
    ensures shape { IfOk result (λ c. shape_of c ≡ plain (codes "eval")) }
    ensures local { IfOk result (λ c. (fields_of c).has_globals ≡ false) }
{
    plain(alloc, "eval", EVAL, STRICT, EXPLAIN)
}

fn check<'a>(alloc: Global) -> Result<Command<'a>, AllocError>
    ensures shape { IfOk result (λ c. shape_of c ≡ plain (codes "check")) }
    ensures local { IfOk result (λ c. (fields_of c).has_globals ≡ false) }
{
    plain(alloc, "check", CHECK, CERTAIN, EXPLAIN_CHECK)
}

// A command that has no options but those of each command.
fn plain<'a>(
    alloc: Global,
    name: &'a str,
    about: &'a str,
    strict: &'a str,
    explain: &'a str,
) -> Result<Command<'a>, AllocError>
    ensures shape { IfOk result (λ c. shape_of c ≡ plain name.entry.now) }
    ensures local { IfOk result (λ c. (fields_of c).has_globals ≡ false) }
{
    let strict = bare(alloc, name, about).arg(flag(alloc, "strict", strict));
    with_option(strict, flag(alloc, "explain", explain))
}

const STRICT: &str = "Exit with 6 if any call is refused or a fault";

const CERTAIN: &str = "Exit with 6 if a call on world is certain to be refused";

const EXPLAIN: &str = "Say why ranks wait and what is wrong, on standard error";

const EXPLAIN_CHECK: &str = "Say what is wrong with the script, on standard error";

const TRACE: &str = "Print every frame and result, on standard error";

const TABLE: &str = "Print a table of turns, on standard error";

const THREADS: &str = "Run each rank in its own thread instead of simulating";

const SEED: &str = "Seed of everything random [default: 1]";

const LOSS: &str = "Lose N of 100 frames, 0 to 100 [default: 0]";

const RELAYS: &str = "Add N processes that only pass frames on [default: 0]";

const TURNS: &str = "Stop after N turns [default: 100000]";

const WORKERS: &str = "Threads of the simulation; the output is the same";

// A command without options.
fn bare<'a>(alloc: Global, name: &'a str, about: &'a str) -> Command<'a>
    ensures shape { shape_of result ≡ new_shape name.entry.now }
    ensures local { (fields_of result).has_globals ≡ false }
{
    Command::new(alloc, name).about(about)
}

// An option that stands alone.
fn flag<'a>(alloc: Global, name: &'a str, help: &'a str) -> Arg<'a>
    ensures rule { rule_of result ≡ record (new_rule name.entry.now) { long = Some name.entry.now; action = Some ArgAction.SetTrue } }
    ensures local { result.global ≡ false }
{
    Arg::new(alloc, name)
        .long(name)
        .help(help)
        .action(ArgAction::SetTrue)
}

// An option that is followed by a value.
fn option<'a>(alloc: Global, name: &'a str, help: &'a str) -> Arg<'a>
    ensures rule { rule_of result ≡ valued name.entry.now }
    ensures local { result.global ≡ false }
{
    Arg::new(alloc, name).long(name).help(help).value_name("N")
}
