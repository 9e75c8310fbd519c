// The data that the device keeps and hands over. What the device does with it is defined in specs/, in the order of the
// rules; the theorems about that are in proofs/.
#![tactic(auto)]

ghost use Rattle.std.specs.Prelude.{◌≡◌};
ghost use Rattle.device.specs.Sizes.{max_peers, max_vectors};
ghost use Rattle.device.specs.Reset.{reset_peer, reset_entry};

// The most peers and vectors that a hub can be set up with. Proofs know these numbers only by name.
pub const MAX_PEERS: usize = 64;

pub const MAX_VECTORS: usize = 16;

pub fn max_peers() -> usize
    ensures { result ≡ max_peers }
{
    MAX_PEERS
}

pub fn max_vectors() -> usize
    ensures { result ≡ max_vectors }
{
    MAX_VECTORS
}

// A peer's id and a vector number: two types, so that one cannot be passed for the other.
#[repr(C)]
#[derive(Clone, Copy)]
pub struct PeerId(pub u16);

#[repr(C)]
#[derive(Clone, Copy)]
pub struct Vector(pub u16);

// The set-up numbers, the same for all peers.
#[derive(Clone, Copy)]
pub struct Settings {
    // Maximum Peers
    pub peers: u64,
    // MSI-X vectors of each peer
    pub vectors: u64,
    // bytes of the State Table, of the common read/write section and of each output section
    pub table: u64,
    pub common: u64,
    pub output: u64,
    // guest physical address of the shared region
    pub base: u64,
    // protocol type, subsystem vendor and subsystem id, 16 bits each
    pub protocol: u64,
    pub vendor: u64,
    pub subsystem: u64,
}

// What can change of one peer's configuration space and register region, a word for each register.
#[derive(Clone, Copy)]
pub struct Peer {
    // 1: the peer is connected
    pub connected: u32,
    pub command: u32,
    pub bar0: u32,
    pub bar1: u32,
    // Privileged Control; bit 0: one-shot
    pub privileged: u32,
    // the high byte of Message Control; bit 6: function mask, bit 7: MSI-X enable
    pub message: u32,
    // Interrupt Control; bit 0: interrupts enabled
    pub interrupt: u32,
    pub state: u32,
}

impl Peer {
    pub const COMMAND: u32 = 0;

    pub const BAR: u32 = 0;

    pub const PRIVILEGED: u32 = 0;

    pub const MESSAGE: u32 = 0;

    pub const INTERRUPT: u32 = 0;

    pub const STATE: u32 = 0;

    // All registers at their reset values, of a peer that is connected (1) or not (0).
    pub fn reset(connected: u32) -> Self
        ensures { result ≡ reset_peer connected }
    {
        Self {
            connected,
            command: Self::COMMAND,
            bar0: Self::BAR,
            bar1: Self::BAR,
            privileged: Self::PRIVILEGED,
            message: Self::MESSAGE,
            interrupt: Self::INTERRUPT,
            state: Self::STATE,
        }
    }
}

// One entry of a peer's MSI-X table: Message Address, Message Upper Address, Message Data, Vector Control.
#[derive(Clone, Copy)]
pub struct Entry {
    pub low: u32,
    pub high: u32,
    pub payload: u32,
    // bit 0: the vector is masked
    pub control: u32,
}

impl Entry {
    pub const ADDRESS: u32 = 0;

    pub const PAYLOAD: u32 = 0;

    pub const CONTROL: u32 = 1;

    pub fn reset() -> Self
        ensures { result ≡ reset_entry }
    {
        Self {
            low: Self::ADDRESS,
            high: Self::ADDRESS,
            payload: Self::PAYLOAD,
            control: Self::CONTROL,
        }
    }
}

// The switches of a peer that decide over one ring of one vector.
#[derive(Clone, Copy)]
pub struct Gate {
    // Command bit 2, Bus Master
    pub master: bool,
    pub enabled: bool,
    // the function mask and the entry's own mask
    pub masked: bool,
    pub silenced: bool,
    // Interrupt Control bit 0 and Privileged Control bit 0
    pub interrupt: bool,
    pub oneshot: bool,
}

// What a ring finds at the id and vector that it names.
#[derive(Clone, Copy)]
pub enum Target {
    Live(Gate),
    Nobody,
}

// An interrupt handed to the host: 16 bytes, with no padding.
#[repr(C)]
#[derive(Clone, Copy)]
pub struct Delivery {
    pub address: u64,
    pub payload: u32,
    pub target: PeerId,
    pub vector: Vector,
}

// The section that a range of the shared region lies in.
#[derive(Clone, Copy)]
pub enum SectionKind {
    Nothing,
    StateTable,
    ReadWrite,
    Output(PeerId),
}

// The answer to the section question: the section, and whether the asking peer may store to it.
#[derive(Clone, Copy)]
pub struct SectionAnswer {
    pub kind: SectionKind,
    pub store: bool,
}

// A call's answer: 0 or the refusal's number, and the value read.
#[repr(C)]
#[derive(Clone, Copy)]
pub struct Reply {
    pub number: u32,
    pub value: u32,
}

// The same for the section question.
#[derive(Clone, Copy)]
pub struct SectionReply {
    pub reply: Reply,
    pub section: SectionAnswer,
}
