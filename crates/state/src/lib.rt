// The drive's state by value: one loop's side of it with a table of logins, each with a table of exchanges, and the logical unit.
// Everything stored is an unsigned integer or an array, so that any bytes are a state.
#![tactic(auto)]

mod changes;
mod searches;
mod stored;

ghost use Rattle.std.specs.Prelude.{◌≡◌};
ghost use Rattle.state.specs.Changes.{own_of};

pub use changes::{change_all, changed};
pub use searches::{all_closed, find_exchange, free_exchange, is_closed, is_free};
pub use stored::{
    advance, ask_data, empty_exchange, empty_login, end_exchange, end_exchanges, exchange_at,
    login_at, put_exchange, put_login, set_attention, take_data,
};

// A place for an open exchange of a login. What its data are is told by kind; a free place has kind 0.
// kept: kind, direction and awaited are numbers, since the C interface fixes the layout, and any bytes are a state
#[repr(C)]
#[derive(Clone, Copy)]
pub struct Exchange {
    // READ and WRITE: the first block, and how many
    pub start: u64,
    pub blocks: u32,
    // the bytes that the command wants, those that the host expects (FCP_DL), and those sent, by the drive or by the host
    pub wanted: u32,
    pub expected: u32,
    pub sent: u32,
    pub ox_id: u16,
    // the data frames that the drive sent, going round at 65,536
    pub count: u16,
    // where its data go: 0 to the host, 1 from it
    pub direction: u8,
    // 1 while data that were asked for have not all come
    pub awaited: u8,
    pub kind: u16,
}

impl Exchange {
    // a free place
    pub const EMPTY: Exchange = Exchange {
        start: 0,
        blocks: 0,
        wanted: 0,
        expected: 0,
        sent: 0,
        ox_id: 0,
        count: 0,
        direction: 0,
        awaited: 0,
        kind: 0,
    };

    // kept: the kinds and directions as the C interface stores them
    pub const FREE: u16 = 0;

    pub const BLOCKS: u16 = 1;

    pub const INQUIRY: u16 = 2;

    pub const INQUIRY_OTHER_UNIT: u16 = 3;

    pub const READ_CAPACITY: u16 = 4;

    pub const SENSE_NONE: u16 = 5;

    pub const SENSE_RESET: u16 = 6;

    pub const SENSE_CLEARED: u16 = 7;

    pub const SENSE_OTHER_UNIT: u16 = 8;

    pub const TO_HOST: u8 = 0;

    pub const FROM_HOST: u8 = 1;

    // the bytes that are asked for at a time, at most
    pub const MOST_BURST: u32 = 65536;
    // the blocks of a READ or WRITE at most
    pub const MOST_BLOCKS: u64 = 65535;
}

// A place for a login. Flags are 0 or 1; attention is 0, 29h or 2Fh.
// kept: flags and attention are numbers, and exchanges are known by their place, since the C interface fixes the layout
#[repr(C)]
#[derive(Clone, Copy)]
pub struct Login {
    pub used: u8,
    pub proven: u8,
    pub paired: u8,
    pub attention: u8,
    // W19/B1 and W20/B1 of the accepted PLOGI, and its W18 size
    pub concurrent: u8,
    pub sequences: u8,
    pub size: u16,
    pub address: u32,
    pub port_name: [u8; 8],
    pub node_name: [u8; 8],
    pub places: [Exchange; 8],
}

impl Login {
    // a free place, with no exchange
    pub const EMPTY: Login = Login {
        used: 0,
        proven: 0,
        paired: 0,
        attention: 0,
        concurrent: 0,
        sequences: 0,
        size: 0,
        address: 0,
        port_name: [0; 8],
        node_name: [0; 8],
        places: [Exchange::EMPTY; 8],
    };

    // kept: the attentions as the C interface stores them
    pub const NO_ATTENTION: u8 = 0;

    pub const RESET: u8 = 0x29;

    pub const CLEARED: u8 = 0x2f;

    pub const PLACES: usize = 8;
}

// One loop's side of the drive: its address, words 1 to 28 of its login accept, and its logins.
// kept: logins are known by their place in a table of eight, since the C interface fixes the layout
#[repr(C)]
#[derive(Clone, Copy)]
pub struct Port {
    pub address: u32,
    pub accept: [u8; 112],
    pub logins: [Login; 8],
}

impl Port {
    pub const LOGINS: usize = 8;
}

// What a reply and the rules take from a port: its address and accept words.
#[derive(Clone, Copy)]
pub struct Own {
    pub address: u32,
    pub accept: [u8; 112],
}

// The logical unit: its capacity in blocks of 512 bytes, its 28 identity bytes, and whether hosts may write it, 0 or 1.
// kept: writable is a number, since the C interface fixes the layout
#[repr(C)]
#[derive(Clone, Copy)]
pub struct Unit {
    pub capacity: u64,
    pub identity: [u8; 28],
    pub writable: u8,
}

// What a drive is made from.
// kept: writable is a number, since the C interface fixes the layout
#[repr(C)]
#[derive(Clone, Copy)]
pub struct Setup {
    pub capacity: u64,
    pub address: u32,
    pub identity: [u8; 28],
    pub accept: [u8; 112],
    pub writable: u8,
}

impl Setup {
    pub const LEAST_BLOCKS: u64 = 1;

    pub const MOST_BLOCKS: u64 = 4294967295;
}

// What may happen to every login of a table at once.
#[derive(Clone, Copy)]
pub enum Change {
    // every login stays as it is
    Keep,
    // every login ends
    EndAll,
    // the login of an address ends
    EndLogin(u32),
    // the login of an address ends, and the login of a port name
    EndHost(u32, u64),
    // every login is to be verified
    Unprove,
    // every login that was not verified ends
    EndUnproven,
    // the exchanges of the login of an address end
    EndExchangesOf(u32),
    // target reset: all exchanges end, and every login gets attention 29h
    Reset,
    // the task set is cleared by the login of an address: all exchanges end, and each other login that lost one gets attention 2Fh
    Clear(u32),
}

// What a reply and the rules take from a port.
impl From<&Port> for Own {
    ghost from_gives = { λ p o. o ≡ own_of p.now };

    #[tactic(auto, unfolding(crate::specs::Changes::own_of))]
    fn from(p: &Port) -> Own {
        let accept = p.accept;
        Own {
            address: p.address,
            accept,
        }
    }
}
