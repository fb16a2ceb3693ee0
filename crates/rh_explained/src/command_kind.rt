//! Kinds of commands.

ghost use Rattle.std.specs.Prelude.{◌≡◌};
ghost use Rattle.std.specs.Str.{bytes_eq};
ghost use Rattle.rh_explained.specs.CommandKinds.{area_kind, flex_kind, heap_kind, kind_at as kind_of_word, kind_named};
ghost use Rattle.rh_explained.specs.CommandKinds.{own_words as words_of_own, program_kind, rma_kind, task_kind};
ghost use Rattle.rh_explained.specs.CommandKinds.{is_of_bytes as is_of_bytes_kind};
ghost use Rattle.rh_explained.specs.CommandKinds.{is_of_programs as is_of_programs_kind, word_kinds as kinds_of_words};
ghost use Rattle.rh_explained.specs.Explanations.{kind_in};
ghost use Rattle.rh_explained.specs.KindTable.{kind_of};

use crate::word_kind::WordKind;
use crate::word_kind::WordKind::{
    ActionNumber, Address, Amount, Anchor, AnsweredRef, AreaNumber, Buffer, Bytes, Code, Data,
    Direction, FileName, Handle, Id, Leaf, MadeNumber, Manner, MostPages, NewName, Offset, RmaWord,
    Size, Switch, TaskName,
};
use crate::words::word_of;
use rh_defs::{Command, Question, RawCommand};

/// A kind of command, by the words that name it.
#[derive(Clone, Copy)]
pub enum CommandKind {
    Task,
    Kill,
    Save,
    Poll,
    Cancel,
    Repeat,
    Status,
    Alloc,
    Load,
    Put,
    Free,
    Extend,
    Mid,
    Show,
    Blocks,
    Claim,
    Release,
    Resize,
    Budge,
    Heap,
    Area,
    Make,
    Remove,
    Areas,
    /// `rma` with none of the three words of its commands behind it.
    Rma,
    RmaClaim,
    RmaFree,
    RmaResize,
    Send,
    Read,
    Write,
    Transfer,
    Ack,
    Spool,
    Scrap,
}

impl CommandKind {
    /// The kind of command that a line names.
    pub fn in_line(line: &[u8]) -> Option<CommandKind>
        ensures { result ≡ kind_in line.now }
    {
        CommandKind::named(word_of(line, 1), word_of(line, 2))
    }

    /// The kind that a line's first two words name.
    pub fn named(first: &[u8], second: &[u8]) -> Option<CommandKind>
        ensures { result ≡ kind_named first.now second.now }
    {
        if let Some(kind) = task_kind(first) {
            return Some(kind);
        }
        if let Some(kind) = flex_kind(first) {
            return Some(kind);
        }
        if let Some(kind) = heap_kind(first, second) {
            return Some(kind);
        }
        if let Some(kind) = area_kind(first) {
            return Some(kind);
        }
        program_kind(first)
    }

    /// The kind of a command.
    pub fn of(command: &Command) -> CommandKind
        ensures { result ≡ kind_of command.now }
    {
        match command {
            Command::Task { .. } => CommandKind::Task,
            Command::Kill { .. } => CommandKind::Kill,
            Command::Alloc { .. } => CommandKind::Alloc,
            Command::Load { .. } => CommandKind::Load,
            Command::Put { .. } => CommandKind::Put,
            Command::Free { .. } => CommandKind::Free,
            Command::Extend { .. } => CommandKind::Extend,
            Command::Mid { .. } => CommandKind::Mid,
            Command::Claim { .. } => CommandKind::Claim,
            Command::Release { .. } => CommandKind::Release,
            Command::Resize { .. } => CommandKind::Resize,
            Command::Budge { .. } => CommandKind::Budge,
            Command::Save { .. } => CommandKind::Save,
            Command::Poll { .. } => CommandKind::Poll,
            Command::CancelIn { .. } | Command::CancelOut { .. } => CommandKind::Cancel,
            Command::Repeat { .. } => CommandKind::Repeat,
            Command::Area { .. } => CommandKind::Area,
            Command::Make { .. } => CommandKind::Make,
            Command::Remove { .. } => CommandKind::Remove,
            Command::RmaClaim { .. } => CommandKind::RmaClaim,
            Command::RmaFree { .. } => CommandKind::RmaFree,
            Command::RmaResize { .. } => CommandKind::RmaResize,
            Command::Raw(command) => CommandKind::of_raw(command),
            Command::Ask(question) => CommandKind::of_question(question),
        }
    }

    /// The kind of a command of a task with code of its own.
    fn of_raw(command: &RawCommand) -> CommandKind
        ensures { result ≡ kind_of (Command.Raw command.now) }
    {
        match command {
            RawCommand::Send { .. } => CommandKind::Send,
            RawCommand::Write { .. } => CommandKind::Write,
            RawCommand::Transfer { .. } => CommandKind::Transfer,
            RawCommand::Ack { .. } => CommandKind::Ack,
            RawCommand::Spool { .. } => CommandKind::Spool,
            RawCommand::Scrap { .. } => CommandKind::Scrap,
        }
    }

    /// The kind of a question.
    fn of_question(question: &Question) -> CommandKind
        ensures { result ≡ kind_of (Command.Ask question.now) }
    {
        match question {
            Question::Show { .. } => CommandKind::Show,
            Question::Read { .. } => CommandKind::Read,
            Question::Blocks { .. } => CommandKind::Blocks,
            Question::Heap { .. } => CommandKind::Heap,
            Question::Status { .. } => CommandKind::Status,
            Question::Areas => CommandKind::Areas,
        }
    }

    /// The kinds of the words behind those that name it.
    pub fn word_kinds(self) -> &'static [WordKind]
        ensures { result.now ≡ kinds_of_words self }
    {
        match self {
            CommandKind::Task => &[NewName, Buffer, Manner],
            CommandKind::Kill
            | CommandKind::Poll
            | CommandKind::Repeat
            | CommandKind::Status
            | CommandKind::Blocks
            | CommandKind::Heap
            | CommandKind::Ack => &[TaskName],
            CommandKind::Save => &[TaskName, Anchor, TaskName, Leaf],
            CommandKind::Cancel => &[TaskName, Direction, Id],
            CommandKind::Alloc | CommandKind::Extend => &[TaskName, Anchor, Size],
            CommandKind::Load => &[TaskName, Anchor, FileName],
            CommandKind::Put => &[TaskName, Anchor, Offset, Bytes],
            CommandKind::Free | CommandKind::Show | CommandKind::Scrap => &[TaskName, Anchor],
            CommandKind::Mid => &[TaskName, Anchor, Offset, Amount],
            CommandKind::Claim => &[TaskName, Size],
            CommandKind::Release => &[TaskName, Address],
            CommandKind::Resize => &[TaskName, Address, Amount],
            CommandKind::Budge => &[TaskName, Switch],
            CommandKind::Area => &[AreaNumber, Amount],
            CommandKind::Make => &[MostPages],
            CommandKind::Remove => &[MadeNumber],
            CommandKind::Areas => &[],
            CommandKind::Rma => &[RmaWord],
            CommandKind::RmaClaim => &[Size],
            CommandKind::RmaFree => &[Address],
            CommandKind::RmaResize => &[Address, Amount],
            CommandKind::Send => &[TaskName, Code, Handle, AnsweredRef, ActionNumber, Data],
            CommandKind::Read => &[TaskName, Address, Size],
            CommandKind::Write => &[TaskName, Address, Bytes],
            CommandKind::Transfer => &[TaskName, Address, Handle, Address, Size],
            CommandKind::Spool => &[TaskName, Anchor, Handle, AnsweredRef],
        }
    }

    /// Whether it is about bytes at an address of its own task's slot.
    pub fn is_of_bytes(self) -> bool
        ensures { result ≡ is_of_bytes_kind self }
    {
        matches!(self, CommandKind::Read | CommandKind::Write)
    }

    /// Whether it is about tasks with code of their own alone.
    pub fn is_of_programs(self) -> bool
        ensures { result ≡ is_of_programs_kind self }
    {
        match self {
            CommandKind::Send
            | CommandKind::Write
            | CommandKind::Transfer
            | CommandKind::Ack
            | CommandKind::Spool
            | CommandKind::Scrap => true,
            _ => false,
        }
    }

    /// How many words name it.
    fn own_words(self) -> usize
        ensures { result ≡ words_of_own self }
    {
        match self {
            CommandKind::RmaClaim | CommandKind::RmaFree | CommandKind::RmaResize => 2,
            _ => 1,
        }
    }

    /// The kind of word `n` of its lines, counted from 1, unless the word is one that names it.
    pub fn word_kind(self, n: u8) -> Option<WordKind>
        ensures { result ≡ kind_of_word self n }
    {
        let behind = (n as usize).saturating_sub(self.own_words() + 1);
        self.word_kinds().get(behind).copied()
    }
}

/// A kind that is about tasks and their transfers.
fn task_kind(first: &[u8]) -> Option<CommandKind>
    ensures { result ≡ task_kind first.now }
{
    if is(first, b"task") {
        Some(CommandKind::Task)
    } else if is(first, b"kill") {
        Some(CommandKind::Kill)
    } else if is(first, b"save") {
        Some(CommandKind::Save)
    } else if is(first, b"poll") {
        Some(CommandKind::Poll)
    } else if is(first, b"cancel") {
        Some(CommandKind::Cancel)
    } else if is(first, b"repeat") {
        Some(CommandKind::Repeat)
    } else if is(first, b"status") {
        Some(CommandKind::Status)
    } else {
        None
    }
}

/// One that is about flex blocks.
fn flex_kind(first: &[u8]) -> Option<CommandKind>
    ensures { result ≡ flex_kind first.now }
{
    if is(first, b"alloc") {
        Some(CommandKind::Alloc)
    } else if is(first, b"load") {
        Some(CommandKind::Load)
    } else if is(first, b"put") {
        Some(CommandKind::Put)
    } else if is(first, b"free") {
        Some(CommandKind::Free)
    } else if is(first, b"extend") {
        Some(CommandKind::Extend)
    } else if is(first, b"mid") {
        Some(CommandKind::Mid)
    } else if is(first, b"show") {
        Some(CommandKind::Show)
    } else if is(first, b"blocks") {
        Some(CommandKind::Blocks)
    } else {
        None
    }
}

/// One that is about heaps.
fn heap_kind(first: &[u8], second: &[u8]) -> Option<CommandKind>
    ensures { result ≡ heap_kind first.now second.now }
{
    if is(first, b"claim") {
        Some(CommandKind::Claim)
    } else if is(first, b"release") {
        Some(CommandKind::Release)
    } else if is(first, b"resize") {
        Some(CommandKind::Resize)
    } else if is(first, b"budge") {
        Some(CommandKind::Budge)
    } else if is(first, b"heap") {
        Some(CommandKind::Heap)
    } else if is(first, b"rma") {
        Some(rma_kind(second))
    } else {
        None
    }
}

/// One that is about areas of pages.
fn area_kind(first: &[u8]) -> Option<CommandKind>
    ensures { result ≡ area_kind first.now }
{
    if is(first, b"area") {
        Some(CommandKind::Area)
    } else if is(first, b"make") {
        Some(CommandKind::Make)
    } else if is(first, b"remove") {
        Some(CommandKind::Remove)
    } else if is(first, b"areas") {
        Some(CommandKind::Areas)
    } else {
        None
    }
}

/// One that is of tasks with code of their own.
fn program_kind(first: &[u8]) -> Option<CommandKind>
    ensures { result ≡ program_kind first.now }
{
    if is(first, b"send") {
        Some(CommandKind::Send)
    } else if is(first, b"read") {
        Some(CommandKind::Read)
    } else if is(first, b"write") {
        Some(CommandKind::Write)
    } else if is(first, b"transfer") {
        Some(CommandKind::Transfer)
    } else if is(first, b"ack") {
        Some(CommandKind::Ack)
    } else if is(first, b"spool") {
        Some(CommandKind::Spool)
    } else if is(first, b"scrap") {
        Some(CommandKind::Scrap)
    } else {
        None
    }
}

fn rma_kind(second: &[u8]) -> CommandKind
    ensures { result ≡ rma_kind second.now }
{
    if is(second, b"claim") {
        CommandKind::RmaClaim
    } else if is(second, b"free") {
        CommandKind::RmaFree
    } else if is(second, b"resize") {
        CommandKind::RmaResize
    } else {
        CommandKind::Rma
    }
}

fn is(word: &[u8], text: &[u8]) -> bool
    ensures { result ≡ bytes_eq word.now text.now }
{
    word == text
}
