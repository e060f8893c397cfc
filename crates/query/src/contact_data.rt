// What a contact carries along: any kind of plain datum with one initial value.
ghost use Rattle.std.specs.Prelude.{◌≡◌};
ghost use Rattle.query.specs.Data.{touch_initial, tally_initial};

// No default body: it would ask `Default` of every datum.
pub trait ContactData: Copy {
    // The datum of every new contact.
    ghost initial: { Self };

    fn initial_datum() -> Self
        ensures { result ≡ initial };
}

// Two f64 kept as their bits, whatever they are.
#[derive(Clone, Copy, Debug, Default, PartialEq, Eq)]
pub struct TouchRecord {
    pub first: u64,
    pub second: u64,
}

impl ContactData for TouchRecord {
    ghost initial = { touch_initial };

    fn initial_datum() -> TouchRecord {
        TouchRecord::default()
    }
}

#[derive(Clone, Copy, Debug, Default, PartialEq, Eq)]
pub struct ServiceTally {
    pub strikes: u32,
    pub oilings: u32,
}

impl ContactData for ServiceTally {
    ghost initial = { tally_initial };

    fn initial_datum() -> ServiceTally {
        ServiceTally::default()
    }
}
