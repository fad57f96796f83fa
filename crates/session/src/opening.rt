// What a session is opened with.
ghost use Rattle.std.specs.Prelude.{◌≡◌, ◌≤◌};
ghost use Rattle.session.specs.Way.{word};
ghost use Rattle.session.specs.Session.{most_bytes};

// Which way its message goes.
#[derive(Clone, Copy, Debug, PartialEq, Eq)]
pub enum Way {
    Receiving = 1,
    Sending = 2,
}

impl Way {
    // The word of a block that says so.
    pub fn word(self) -> u64
        ensures { result ≡ word self }
    {
        self as u64
    }
}

#[derive(Clone, Copy)]
pub struct Opening {
    // Which way it goes, if it goes one.
    pub way: Option<Way>,

    // The peer's address.
    pub peer: u8,

    // How many bytes the message has.
    pub size: u64,

    // The number of the last packet that is asked for.
    pub through: u64,

    // How many packets may be asked for at a time.
    pub limit: u64,

    // How many milliseconds without an answer end the session, and since when they are counted.
    pub timer: u64,
    pub since: u64,
    pub ghost short: { size ≤ most_bytes },
    pub ghost few: { limit ≤ 16 },
}
