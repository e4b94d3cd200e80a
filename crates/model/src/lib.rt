//! What MMIX is: the state of the machine, the reply of a step, the lent windows' bases, which field reaches an address, what a whole-number operation takes and gives.
//! specs/ defines the rest.
#![tactic(auto)]

ghost use Rattle.std.specs.Prelude.{◌≡◌};
ghost use Rattle.model.specs.Registers.{fresh, fresh_at};
ghost use Rattle.model.specs.Parts.{lent};
ghost use Rattle.model.specs.Lent.{windows_lent, windows_read, SaidBy};

pub mod number;
pub mod replies;

/// Where the two lent windows lie: the base addresses of A and of B, the stack's.
#[derive(Clone, Copy)]
pub struct Bases {
    pub a: u64,
    pub b: u64,
}

/// 256 general registers, 32 special ones, PC, halt code (the Rust's `exit_code`), vector marks and the mask of hidden registers:
/// bit k of the marks says that all four bytes at 16 × k were loaded, bit k of the mask that special k is hidden from programs.
#[repr(C)]
#[derive(Clone, Copy)]
pub struct State {
    pub general: [u64; 256],
    pub special: [u64; 32],
    pub pc: u64,
    pub halt: u64,
    pub marks: u64,
    pub mask: u64,
}

/// A state that is lent for a call, in parts, as a C host may hold it: changed in place.
#[derive(Drop)]
pub struct StateMut<'s> {
    pub general: &'s mut [u64; 256],
    pub special: &'s mut [u64; 32],
    pub pc: &'s mut u64,
    pub halt: &'s mut u64,
    pub marks: u64,
    pub mask: u64,
}

/// The two windows that are lent for a call, A and B, the stack's: changed in place.
#[derive(Drop)]
pub struct WindowsMut<'w> {
    pub a: &'w mut [u8],
    pub b: &'w mut [u8],
    pub at: Bases,
}

/// The two windows, only read.
#[derive(Clone, Copy)]
pub struct WindowsRef<'w> {
    pub a: &'w [u8],
    pub b: &'w [u8],
    pub at: Bases,
}

impl WindowsMut<'_> {
    /// The same windows, only read.
    pub fn read(&self) -> WindowsRef<'_>
        ensures { windows_read result ≡ windows_lent self.now }
    {
        WindowsRef {
            a: self.a,
            b: self.b,
            at: self.at,
        }
    }
}

/// An instruction: its opcode, X, Y and Z.
#[derive(Clone, Copy, PartialEq, Eq)]
pub struct Instruction {
    pub op: u8,
    pub x: u8,
    pub y: u8,
    pub z: u8,
}

impl From<u32> for Instruction {
    ghost from_gives = { SaidBy };

    /// The instruction that a tetra says.
    fn from(tetra: u32) -> Instruction {
        let [op, x, y, z] = tetra.to_be_bytes();
        Instruction { op, x, y, z }
    }
}

// No Result: a call promises one number, 0 among them, and C gets it as it is.
/// The reply of a call: done, or one of the refusals in the order of their numbers.
#[derive(Clone, Copy, PartialEq, Eq)]
pub enum Reply {
    Done,
    // 1 to 6 leave everything as it was.
    NotAdmissible,
    WindowRule,
    NoArm,
    NamedTrap,
    NoSpecial,
    Missing,
    // 7 to 18 set the halt code to 1, and so do 29 and 31.
    PutUnknown,
    PutPrivileged,
    PutIllegal,
    PutThreshold,
    PutStatus,
    Misplaced,
    SaveLocal,
    SavedThreshold,
    SavedStatus,
    SavedCount,
    SyncPrivileged,
    SyncIllegal,
    // 19 and 20 also leave the trip or trap registers.
    NotLoaded,
    Trapped,
    // 21 is no step's: no field of either direction reaches an address.
    OutOfReach,
    // The two windows share an octabyte: judged right after 2, and leaves everything as it was.
    Shared,
    // The reader's alone: a context that lies across both windows.
    Across,
    // The tetra at PC is in no window: judged after 22 and before 3, and leaves everything as it was.
    NotFetched,
    // A run's alone: a grant above 1,000,000, judged after 22; the call is refused whole.
    GrantTooLarge,
    // 26 to 28 are those of points to return to, and leave everything as it was: a store shorter than sixteen rooms; a name above 15, or on
    // going back one under which nothing is taken; a point of other bases or lengths than those lent, or whose state is not admissible.
    StoreTooShort,
    NoPoint,
    OtherPoint,
    // POP with rO at the stack's start or below it: judged before 12, and sets the halt code to 1.
    NoFrame,
    // A set of more than 32 pairs of register and value: judged after 1, and leaves everything as it was.
    TooManyPairs,
    // GET or PUT of a hidden register: judged after 5 for GET and before 7 for PUT, and sets the halt code to 1.
    Hidden,
    // Of several tasks. An octabyte that a task's instruction needs, or its tetra, lies in B outside the task's own part: judged just before 6 or 24,
    // and leaves everything as it was.
    Foreign,
    // Not 1 to 8 tasks, parts that overlap, leave the window or split an octabyte, or instructions a turn not 1 to 1,000: judged after 25; the call is refused whole.
    TasksRule,
}

/// A reply and the state that a call leaves.
#[derive(Clone, Copy)]
pub struct Answer {
    pub reply: Reply,
    pub state: State,
}

/// One of the two lent windows; B is the stack's.
#[derive(Clone, Copy, PartialEq, Eq)]
pub enum Window {
    A,
    B,
}

/// An octabyte that was read, and which window holds it.
#[derive(Clone, Copy)]
pub struct Octabyte {
    pub value: u64,
    pub holder: Option<Window>,
}

/// The largest grant of a run.
pub const GRANT_MOST: u64 = 1_000_000;

/// How many bytes a state image has: as it is now, and the old one, without a mask.
pub const IMAGE_LEN: usize = 2336;

pub const OLD_IMAGE_LEN: usize = 2328;

/// Which field of an instruction reaches an address: its direction and its value.
#[derive(Clone, Copy)]
pub enum Reach {
    Forward(u32),
    Backward(u32),
    // No field of either direction does. No Option: a promise gives a number and values to each case, this one's too.
    Neither,
}

/// The whole-number operations in the order of their opcodes, 0x18 to 0x3F: each with $Z, then with Z.
#[derive(Clone, Copy)]
pub enum Operation {
    Mul,
    Mulu,
    Div,
    Divu,
    Add,
    Addu,
    Sub,
    Subu,
    // The scaled sums, 2ADDU to 16ADDU.
    Addu2,
    Addu4,
    Addu8,
    Addu16,
    Cmp,
    Cmpu,
    Neg,
    Negu,
    Sl,
    Slu,
    Sr,
    Sru,
}

/// What an operation takes: $Y (of NEG and NEGU the constant Y), $Z or Z, and the special registers rD, rH and rR.
#[derive(Clone, Copy)]
pub struct Operands {
    pub y: u64,
    pub z: u64,
    pub rd: u64,
    pub rh: u64,
    pub rr: u64,
}

/// What it gives: $X, rH, rR and the exception flag: D (0x80), V (0x40) or none (0).
#[derive(Clone, Copy)]
pub struct Results {
    pub x: u64,
    pub rh: u64,
    pub rr: u64,
    pub flags: u8,
}

impl State {
    // Special register numbers, as indices into `special`.
    pub const RB: usize = 0;

    pub const RD: usize = 1;

    pub const RE: usize = 2;

    pub const RH: usize = 3;

    pub const RJ: usize = 4;

    pub const RM: usize = 5;

    pub const RR: usize = 6;

    pub const RBB: usize = 7;

    pub const RC: usize = 8;

    pub const RN: usize = 9;

    pub const RO: usize = 10;

    pub const RS: usize = 11;

    pub const RI: usize = 12;

    pub const RT: usize = 13;

    pub const RTT: usize = 14;

    pub const RK: usize = 15;

    pub const RQ: usize = 16;

    pub const RU: usize = 17;

    pub const RV: usize = 18;

    pub const RG: usize = 19;

    pub const RL: usize = 20;

    pub const RA: usize = 21;

    pub const RF: usize = 22;

    pub const RP: usize = 23;

    pub const RW: usize = 24;

    pub const RX: usize = 25;

    pub const RY: usize = 26;

    pub const RZ: usize = 27;

    pub const RWW: usize = 28;

    pub const RXX: usize = 29;

    pub const RYY: usize = 30;

    pub const RZZ: usize = 31;

    /// Where the register stack starts.
    pub const STACK_START: u64 = 0x6000000000000000;

    /// The state in which the machine starts.
    pub fn initialize() -> State
        ensures { result ≡ fresh }
    {
        State::initialize_at(State::STACK_START)
    }

    /// The same with the register stack at another address, any number.
    pub fn initialize_at(stack_start: u64) -> State
        ensures { result ≡ fresh_at stack_start }
    {
        let mut special = [0u64; 32];
        special[State::RN] = 2009;
        special[State::RG] = 32;
        special[State::RO] = stack_start;
        special[State::RS] = stack_start;
        special[State::RK] = 0xFFFFFFFFFFFFFFFF;
        special[State::RT] = 0x8000000500000000;
        special[State::RTT] = 0x8000000600000000;
        special[State::RV] = 0x369C200400000000;
        State {
            general: [0; 256],
            special,
            pc: 0,
            halt: 0,
            marks: 0,
            mask: 0,
        }
    }
}
