ghost use Rattle.std.specs.Prelude.{◌≡◌, ◌≢◌, ◌≤◌, ℕ, List, true, false, IfOk, IsErrOf, IsTrue, length, map};
ghost use Rattle.std.specs.String.{string_bytes};
ghost use Rattle.std.specs.Io.KnownBytes.{IsAtEnd};
ghost use Rattle.aq_base.specs.Faults.{HasRisen};
ghost use Rattle.aq_base.specs.Refusal.{line_of};
ghost use Rattle.aquarius_top.specs.declared.top.NoTask.TheVariants as none;
ghost use Rattle.aquarius_top.specs.Words.{to_run, to_show, to_bam, to_analyse, to_verify, to_join, to_work, asks_for_source, reads_source, asking_of};
ghost use Rattle.aquarius_top.specs.Plan.{IsTask, IsWork, IsTaskFor, IsCompileTask};
ghost use Rattle.aquarius_top.specs.Reply.{Answers, AnswersInPart, IsTold, is_reply, is_run_end, IsWritten, WritesWhole, WritesFront};

use crate::analyse::analyse_program;
use crate::code_texts::{CodeFault, join_text, verify_text};
use crate::command::{Command, WordsFault, read_words};
use crate::compiled::{Heading, compile_run, print_program};
use crate::exec::{exec_code, run_ready};
use crate::front::{Accepted, FrontFault, accept, accept_within};
use crate::given_options::GivenOptions;
use crate::plan::{Plan, plan_run, refusal_of};
use crate::run::run_image;
use crate::work::Work;
use aq_base::limits::Limits;
use aq_base::put::put;
use aq_base::read_all::{ReadFault, read_all};
use aq_base::refusal::{Refusal, refusal_text};
use aq_base::sink::Sink;
use aq_base::source::Source;
use aq_base::status::Status;
use aq_base::steps::Steps;
use aq_term::memory::Memory;
use aq_term::text::Text;
use bam_link::image::Image;
use code_exec::ready::Ready;
use std::alloc::Global;
use std::sync::ledger::Ledger;

/// The most bytes that a source may give.
const MOST_INPUT: usize = 16_777_216;

/// What is to be done once the source is read.
#[derive(Drop)]
enum Task {
    /// The words are no command.
    BadWords,
    /// The program or the query is refused for this cause.
    Refused(Refusal),
    /// The image is run from its first entry under these limits.
    Run {
        image: Image,
        limits: Limits,
    },
    /// The compiled code is run under these limits.
    Compiled {
        ready: Ready,
        limits: Limits,
    },
    /// The query is run on the text of code under these limits.
    Exec {
        query: Text,
        limits: Limits,
        code: Vec<u8>,
    },
    /// This is the text of the program's code.
    Printed(Vec<u8>),
    /// These are the facts of the program.
    Analysed(Vec<u8>),
    /// The text of code is accepted.
    Accepted,
    /// The parts of code make this text.
    Joined(Vec<u8>),
}

/// Why there is no task.
enum NoTask {
    Memory,
    ReadFault,
}

impl From<Memory> for NoTask {
    ghost from_gives = { λ _ e. e ≡ none.Memory };

    fn from(_memory: Memory) -> NoTask {
        NoTask::Memory
    }
}

/// Does what the words ask for, the program's own name left out: it reads the source to its end, writes the reply to
/// the sink, a run's answers as they come, and answers how that ended.
pub fn aquarius<S: Source, K: Sink, L: Ledger>(
    alloc: Global,
    words: &[String],
    source: &mut S,
    sink: &mut K,
    steps: &mut Steps<L>,
) -> Status
    // A whole reply was written: the one of these words and of the source's bytes. What a run of compiled code or of a text of
    // code writes is not said.
    ensures done { IsTrue (is_reply result) → (text : List ℕ) × IsTold (S.remaining source.old) text
        × Answers (map string_bytes words.now) text result (K.taken sink.old) (K.taken sink.new) }
    ensures end { reads_source (map string_bytes words.now) ≡ true → IsTrue (is_run_end result) → IsAtEnd (S.remaining source.new) }

    // The source is read where the words are a command that reads it, and only there.
    ensures unread { reads_source (map string_bytes words.now) ≡ false → source.new ≡ source.old }

    // A read fault comes before any byte is written, and only where one was counted.
    ensures read { result ≡ Status.ReadFault → HasRisen (S.faults source.old) (S.faults source.new)
        × (sink.new ≡ sink.old) × (reads_source (map string_bytes words.now) ≡ true) }

    // A write fault comes only where one was counted, with some first bytes of the reply taken.
    ensures write { result ≡ Status.WriteFault → HasRisen (K.faults sink.old) (K.faults sink.new)
        × ((text : List ℕ) × IsTold (S.remaining source.old) text
        × AnswersInPart (map string_bytes words.now) text (K.taken sink.old) (K.taken sink.new)) }

    // With want of memory nothing was written.
    ensures memory { result ≡ Status.Memory → sink.new ≡ sink.old }
{
    match read_task(alloc, words, source) {
        Ok(task) => perform(alloc, &task, sink, steps),
        Err(NoTask::Memory) => Status::Memory,
        Err(NoTask::ReadFault) => Status::ReadFault,
    }
}

/// Does a task.
fn perform<K: Sink, L: Ledger>(
    alloc: Global,
    task: &Task,
    sink: &mut K,
    steps: &mut Steps<L>,
) -> Status
    requires { (words : List (List ℕ)) × (text : List ℕ) × IsTask words text task.now }
    ensures done { (words : List (List ℕ)) (text : List ℕ) → IsTask words text task.now → IsTrue (is_reply result)
        → Answers words text result (K.taken sink.old) (K.taken sink.new) }
    ensures write { result ≡ Status.WriteFault → HasRisen (K.faults sink.old) (K.faults sink.new)
        × ((words : List (List ℕ)) (text : List ℕ) → IsTask words text task.now
        → AnswersInPart words text (K.taken sink.old) (K.taken sink.new)) }
    ensures memory { result ≡ Status.Memory → sink.new ≡ sink.old }
    ensures no_read { result ≢ Status.ReadFault }
    ensures run { IsTrue (is_run_end result) → IsWork task.now }
{
    match task {
        Task::BadWords => write_line(sink, b"bad words\n", Status::BadWords),
        Task::Refused(cause) => write_refusal(alloc, cause, sink),
        Task::Run { image, limits } => run_image(alloc, image, limits, sink, steps),
        Task::Compiled { ready, limits } => run_ready(alloc, ready, limits, sink, steps),
        Task::Exec {
            query,
            limits,
            code,
        } => exec_code(alloc, query.as_str(), code, limits, sink, steps),
        Task::Printed(code) => write_line(sink, code, Status::Solved),
        Task::Analysed(facts) => write_line(sink, facts, Status::Solved),
        Task::Accepted => write_line(sink, b"accepted\n", Status::Solved),
        Task::Joined(text) => write_line(sink, text, Status::Solved),
    }
}

/// Writes the line of a refusal.
fn write_refusal<K: Sink>(alloc: Global, cause: &Refusal, sink: &mut K) -> Status
    ensures done { WritesWhole (IsWritten (line_of cause.now) Status.Refused) result (K.taken sink.old) (K.taken sink.new) }
    ensures write { result ≡ Status.WriteFault → HasRisen (K.faults sink.old) (K.faults sink.new)
        × WritesFront (IsWritten (line_of cause.now) Status.Refused) (K.taken sink.old) (K.taken sink.new) }
    ensures memory { result ≡ Status.Memory → sink.new ≡ sink.old }
    ensures no_read { result ≢ Status.ReadFault }
    ensures no_run { is_run_end result ≡ false }
{
    match refusal_text(alloc, cause) {
        Ok(line) => write_line(sink, &line, Status::Refused),
        Err(Memory) => Status::Memory,
    }
}

/// Writes lines, and answers the status unless the sink fails.
fn write_line<K: Sink>(sink: &mut K, line: &[u8], status: Status) -> Status
    requires whole { IsTrue (is_reply status) }
    ensures done { WritesWhole (IsWritten line.now status) result (K.taken sink.old) (K.taken sink.new) }
    ensures write { result ≡ Status.WriteFault → HasRisen (K.faults sink.old) (K.faults sink.new)
        × WritesFront (IsWritten line.now status) (K.taken sink.old) (K.taken sink.new) }
    ensures memory { result ≢ Status.Memory }
    ensures no_read { result ≢ Status.ReadFault }
    ensures no_run { is_run_end status ≡ false → is_run_end result ≡ false }
{
    match put(sink, line) {
        Ok(()) => status,
        Err(_failed) => Status::WriteFault,
    }
}

/// What the words and the source's bytes ask for.
fn read_task<S: Source>(alloc: Global, words: &[String], source: &mut S) -> Result<Task, NoTask>
    ensures task { IfOk result (λ task. (text : List ℕ) × IsTold (S.remaining source.old) text
        × IsTask (map string_bytes words.now) text task) }
    ensures end { reads_source (map string_bytes words.now) ≡ true → IfOk result (λ task. IsWork task → IsAtEnd (S.remaining source.new)) }
    ensures unread { reads_source (map string_bytes words.now) ≡ false → source.new ≡ source.old }
    ensures read { IsErrOf result NoTask.ReadFault → HasRisen (S.faults source.old) (S.faults source.new)
        × (reads_source (map string_bytes words.now) ≡ true) }
{
    match read_words(alloc, words) {
        Ok(command) => task_of(alloc, &command, source),
        Err(WordsFault::Bad) => Ok(Task::BadWords),
        Err(WordsFault::Memory) => Err(NoTask::Memory),
    }
}

/// What a command asks for, on the source's bytes where it reads the source.
fn task_of<S: Source>(alloc: Global, command: &Command, source: &mut S) -> Result<Task, NoTask>
    ensures task { IfOk result (λ task. (text : List ℕ) × IsTold (S.remaining source.old) text
        × IsTaskFor (asking_of command.now) text task) }
    ensures end { asks_for_source (asking_of command.now) ≡ true → IfOk result (λ task. IsWork task → IsAtEnd (S.remaining source.new)) }
    ensures unread { asks_for_source (asking_of command.now) ≡ false → source.new ≡ source.old }
    ensures read { IsErrOf result NoTask.ReadFault → HasRisen (S.faults source.old) (S.faults source.new)
        × (asks_for_source (asking_of command.now) ≡ true) }
{
    match command.work() {
        Some(work) => Ok(work_task(alloc, work)?),
        None => read_for(alloc, command, source),
    }
}

/// What a command asks for on the source's bytes.
fn read_for<S: Source>(alloc: Global, command: &Command, source: &mut S) -> Result<Task, NoTask>
    requires { asks_for_source (asking_of command.now) ≡ true }
    ensures task { IfOk result (λ task. (text : List ℕ) × IsTold (S.remaining source.old) text
        × IsTaskFor (asking_of command.now) text task) }
    ensures end { IfOk result (λ task. IsWork task → IsAtEnd (S.remaining source.new)) }
    ensures read { IsErrOf result NoTask.ReadFault → HasRisen (S.faults source.old) (S.faults source.new) }
{
    match read_all(alloc, source, MOST_INPUT) {
        Ok(text) => Ok(task_on(alloc, command, text)?),
        Err(ReadFault::TooLong) => Ok(Task::Refused(Refusal::InputLength)),
        Err(ReadFault::Failed) => Err(NoTask::ReadFault),
        Err(ReadFault::Memory) => Err(NoTask::Memory),
    }
}

/// What a command asks for on a text.
fn task_on(alloc: Global, command: &Command, text: Vec<u8>) -> Result<Task, Memory>
    requires { length text.items ≤ MOST_INPUT }
    ensures { IfOk result (IsTaskFor (asking_of command.now) text.items) }
{
    match command {
        Command::Run {
            query,
            show: false,
            limits,
        } => run_task(alloc, query.as_str(), *limits, &text),
        Command::Run {
            query,
            show: true,
            limits,
        } => show_task(alloc, query.as_str(), *limits, &text),
        Command::Exec { query, limits } => Ok(Task::Exec {
            query: Text::from_str(alloc, query.as_str())?,
            limits: *limits,
            code: text,
        }),
        Command::Bam => bam_task(alloc, &text),
        Command::Analyse => analyse_task(alloc, &text),
        Command::Verify => verify_task(alloc, &text),
        Command::Join => join_task(alloc, &text),
        Command::Work { seed, size } => work_task(
            alloc,
            Work {
                seed: *seed,
                size: *size,
            },
        ),
    }
}

/// The run of a query on a program, or its refusal.
fn run_task(alloc: Global, query: &str, limits: Limits, text: &[u8]) -> Result<Task, Memory>
    requires { length text.now ≤ MOST_INPUT }
    ensures { IfOk result (IsTaskFor (to_run (record { query = query.now; limits = limits })) text.now) }
{
    match plan_run(alloc, query.as_bytes(), text)? {
        Plan::Refused(cause) => Ok(Task::Refused(cause)),
        Plan::Run(image) => Ok(Task::Run { image, limits }),
        Plan::Compile(accepted) => compile_task(alloc, query, limits, accepted, Heading::Nothing),
    }
}

/// The run of a query on a program once it is compiled, or the refusal of a program whose code is rejected.
fn compile_task(
    alloc: Global,
    query: &str,
    limits: Limits,
    accepted: Accepted,
    heading: Heading,
) -> Result<Task, Memory>
    ensures { IfOk result (IsCompileTask limits) }
{
    match compile_run(alloc, query, accepted, heading)? {
        Some(ready) => Ok(Task::Compiled { ready, limits }),
        None => Ok(Task::Refused(Refusal::Unsupported)),
    }
}

/// The run of a query on a program whose code is shown first, or its refusal. The program is always compiled.
fn show_task(alloc: Global, query: &str, limits: Limits, text: &[u8]) -> Result<Task, Memory>
    requires { length text.now ≤ MOST_INPUT }
    ensures { IfOk result (IsTaskFor (to_show (record { query = query.now; limits = limits })) text.now) }
{
    match accept(alloc, query.as_bytes(), text) {
        Ok(accepted) => compile_task(alloc, query, limits, accepted, Heading::Code),
        Err(fault) => {
            let cause = refusal_of(fault)?;
            Ok(Task::Refused(cause))
        }
    }
}

/// The run of a program that is made here, under the default limits.
fn work_task(alloc: Global, work: Work) -> Result<Task, Memory>
    ensures { (text : List ℕ) → IfOk result (IsTaskFor (to_work work.seed work.size) text) }
{
    let text = work.text(alloc)?;
    let query = work.query(alloc)?;
    let query = query.as_str();
    let limits = GivenOptions::none().limits();
    match accept_within(alloc, query.as_bytes(), &text) {
        Ok(accepted) => compile_task(alloc, query, limits, accepted, Heading::Nothing),
        Err(FrontFault::Refused(_cause)) => Ok(Task::Refused(Refusal::Unsupported)),
        Err(FrontFault::Memory) => Err(Memory),
    }
}

/// The text of a program's code, or its refusal.
fn bam_task(alloc: Global, text: &[u8]) -> Result<Task, Memory>
    requires { length text.now ≤ MOST_INPUT }
    ensures { IfOk result (IsTaskFor to_bam text.now) }
{
    match print_program(alloc, text) {
        Ok(code) => Ok(Task::Printed(code)),
        Err(FrontFault::Refused(cause)) => Ok(Task::Refused(cause)),
        Err(FrontFault::Memory) => Err(Memory),
    }
}

/// The facts of a program, or its refusal.
fn analyse_task(alloc: Global, text: &[u8]) -> Result<Task, Memory>
    requires { length text.now ≤ MOST_INPUT }
    ensures { IfOk result (IsTaskFor to_analyse text.now) }
{
    match analyse_program(alloc, text) {
        Ok(facts) => Ok(Task::Analysed(facts)),
        Err(FrontFault::Refused(cause)) => Ok(Task::Refused(cause)),
        Err(FrontFault::Memory) => Err(Memory),
    }
}

/// That a text of code is accepted, or its refusal.
fn verify_task(alloc: Global, text: &[u8]) -> Result<Task, Memory>
    requires { length text.now ≤ MOST_INPUT }
    ensures { IfOk result (IsTaskFor to_verify text.now) }
{
    match verify_text(alloc, text) {
        Ok(()) => Ok(Task::Accepted),
        Err(CodeFault::Refused(cause)) => Ok(Task::Refused(cause)),
        Err(CodeFault::Memory) => Err(Memory),
    }
}

/// The text that parts of code make, or their refusal.
fn join_task(alloc: Global, text: &[u8]) -> Result<Task, Memory>
    requires { length text.now ≤ MOST_INPUT }
    ensures { IfOk result (IsTaskFor to_join text.now) }
{
    match join_text(alloc, text) {
        Ok(joined) => Ok(Task::Joined(joined)),
        Err(CodeFault::Refused(cause)) => Ok(Task::Refused(cause)),
        Err(CodeFault::Memory) => Err(Memory),
    }
}
