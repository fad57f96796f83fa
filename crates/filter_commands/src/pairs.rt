// What is asked of a pair before a command and what a command does to it, on the pair's block.
ghost use Rattle.std.specs.Prelude.{◌≡◌, length};
ghost use Rattle.filter.specs.Filter.{block_size, filter_of};
ghost use Rattle.entries.specs.Entries.{entries_of};
ghost use Rattle.filter_commands.specs.Changes.{Changing};
ghost use Rattle.filter_commands.specs.Pairs.{holds_of, may_of, change_of};

// What is asked of a pair before a command.
#[derive(Clone, Copy, Debug, PartialEq, Eq)]
pub enum Question {
    IsCleared,
    IsNotCleared,
    WouldPass,
    Lacks,
    NamesFull { name: u64, mask: u64 },
}

// What a command with entries does to a pair. A NAME entry's PGN is the command's one entry.
#[derive(Clone, Copy, Debug, PartialEq, Eq)]
pub enum Change {
    Adds,
    Deletes,
    Creates(bool),
    Names { name: u64, mask: u64 },
}

// A question to a pair, before a command with these entries.
pub fn answer(block: &[u64], question: Question, entries: &[u8]) -> bool
    requires { length block.now ≡ block_size }
    ensures { result ≡ holds_of question (entries_of entries.now) (filter_of block.now) }
{
    match question {
        Question::IsCleared => filter::is_cleared(block),
        Question::IsNotCleared => !filter::is_cleared(block),
        Question::WouldPass => crate::would_pass(block, entries),
        Question::Lacks => crate::lacks(block, entries),
        Question::NamesFull { name, mask } => crate::names_full(
            block,
            crate::first_entry(entries),
            name,
            mask,
        ),
    }
}

// A command with entries changes a pair. Tells whether it was done.
pub fn apply(block: &mut [u64], change: Change, entries: &[u8]) -> bool
    requires { length block.old ≡ block_size }
    ensures { Changing block.old block.new (may_of change (entries_of entries.now) (filter_of block.old)) (change_of change (entries_of entries.now) (filter_of block.old)) result }
{
    match change {
        Change::Adds => crate::add(block, entries),
        Change::Deletes => crate::delete(block, entries),
        Change::Creates(passing) => crate::create(block, passing, entries),
        Change::Names { name, mask } => crate::add_name(
            block,
            crate::first_entry(entries),
            name,
            mask,
        ),
    }
}
