//! What a command names, besides its task.

ghost use Rattle.std.specs.Prelude.{◌≡◌};
ghost use Rattle.std.specs.Option.{option_map};
ghost use Rattle.rh_explained.specs.Subjects.{address_in as address_named, anchor_in as anchor_named};
ghost use Rattle.rh_explained.specs.Subjects.{area_in as area_named, loaded_file as file_named};
ghost use Rattle.rh_explained.specs.Subjects.{recipient_in as recipient_named};

use rh_defs::{Anchor, Command, Name, Question, RawCommand};

/// The anchor that a command names.
pub fn anchor_in(command: &Command) -> Option<Anchor>
    ensures { result ≡ anchor_named command.now }
{
    match command {
        Command::Alloc { anchor, .. }
        | Command::Load { anchor, .. }
        | Command::Put { anchor, .. }
        | Command::Free { anchor, .. }
        | Command::Extend { anchor, .. }
        | Command::Mid { anchor, .. }
        | Command::Save { anchor, .. }
        | Command::Raw(RawCommand::Spool { anchor, .. })
        | Command::Raw(RawCommand::Scrap { anchor, .. })
        | Command::Ask(Question::Show { anchor, .. }) => Some(*anchor),
        _ => None,
    }
}

/// The address that it names.
pub fn address_in(command: &Command) -> Option<u32>
    ensures { result ≡ address_named command.now }
{
    match command {
        Command::Release { address, .. }
        | Command::Resize { address, .. }
        | Command::RmaFree { address }
        | Command::RmaResize { address, .. } => Some(*address),
        _ => None,
    }
}

/// The number of an area that it names.
pub fn area_in(command: &Command) -> Option<u32>
    ensures { result ≡ area_named command.now }
{
    match command {
        Command::Area { number, .. } | Command::Remove { number } => Some(*number),
        _ => None,
    }
}

/// The file that it loads.
pub fn loaded_file(command: &Command) -> Option<&Name>
    ensures { option_map (λ n. n.now) result ≡ file_named command.now }
{
    match command {
        Command::Load { file, .. } => Some(file),
        _ => None,
    }
}

/// The task that it saves a block to.
pub fn recipient_in(command: &Command) -> Option<&Name>
    ensures { option_map (λ n. n.now) result ≡ recipient_named command.now }
{
    match command {
        Command::Save { to, .. } => Some(to),
        _ => None,
    }
}
