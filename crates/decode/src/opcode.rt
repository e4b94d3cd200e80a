// The opcode bytes (mmixal.rs), by name: those that have an arm. An odd one is its neighbour's kin: backward, or with Z itself.
ghost use Rattle.std.specs.Prelude.{◌≡◌};
ghost use Rattle.model.specs.Opcodes.{among, operation_of};
ghost use Rattle.model.specs.Step.{claims};

use model::Operation;

pub const TRAP: u8 = 0x00;
/// MUL to SRU, each with $Z and then with Z; of NEG to NEGUI, Y is a constant.
pub const FIRST_ARITHMETIC: u8 = 0x18;

pub const FIRST_NEGATION: u8 = 0x34;

pub const LAST_NEGATION: u8 = 0x37;

pub const LAST_ARITHMETIC: u8 = 0x3F;
/// BN to BEV, then PBN to PBEV, each forward and then backward.
pub const FIRST_BRANCH: u8 = 0x40;

pub const LAST_BRANCH: u8 = 0x5F;

/// LDB to LDOU, each with $Z and then with Z; the stores in the same order.
pub const FIRST_LOAD: u8 = 0x80;

pub const LAST_LOAD: u8 = 0x8F;

pub const GO: u8 = 0x9E;

pub const GOI: u8 = 0x9F;

pub const FIRST_STORE: u8 = 0xA0;

pub const LAST_STORE: u8 = 0xAF;

pub const PUSHGO: u8 = 0xBE;

pub const PUSHGOI: u8 = 0xBF;

pub const JMP: u8 = 0xF0;

pub const JMPB: u8 = 0xF1;

pub const PUSHJ: u8 = 0xF2;

pub const PUSHJB: u8 = 0xF3;

pub const GETA: u8 = 0xF4;

pub const GETAB: u8 = 0xF5;

pub const PUT: u8 = 0xF6;

pub const PUTI: u8 = 0xF7;

pub const POP: u8 = 0xF8;

pub const SAVE: u8 = 0xFA;

pub const UNSAVE: u8 = 0xFB;

pub const SYNC: u8 = 0xFC;

pub const SWYM: u8 = 0xFD;

pub const GET: u8 = 0xFE;

pub const TRIP: u8 = 0xFF;

/// Whether an opcode is one of a range.
pub fn is_among(op: u8, first: u8, last: u8) -> bool
    ensures { result ≡ among first last op }
{
    first <= op && op <= last
}

/// Opcodes with no arm at which a range of those that claim begins or ends.
const FCMP: u8 = 0x01;

const CSN: u8 = 0x60;

const LDVTSI: u8 = 0x99;

const ANDNL: u8 = 0xEF;

/// Whether $X is claimed before the arm of an instruction that is fetched (`writes_general_register_x`).
#[tactic(auto, unfolding(model::specs::Step::claims, model::specs::Opcodes::among))]
pub fn claims(op: u8) -> bool
    ensures { result ≡ claims op }
{
    matches!(
        op,
        FCMP..=LAST_ARITHMETIC | CSN..=LDVTSI | GO..=GOI | PUSHGO..=ANDNL | PUSHJ..=GETAB | SAVE | GET
    )
}

/// The operation of an opcode.
#[tactic(auto, unfolding(model::specs::Opcodes::operation_of))]
pub fn operation_of(op: u8) -> Operation
    ensures { result ≡ operation_of op }
{
    match op / 2 {
        0x0D => Operation::Mulu,
        0x0E => Operation::Div,
        0x0F => Operation::Divu,
        0x10 => Operation::Add,
        0x11 => Operation::Addu,
        0x12 => Operation::Sub,
        0x13 => Operation::Subu,
        0x14 => Operation::Addu2,
        0x15 => Operation::Addu4,
        0x16 => Operation::Addu8,
        0x17 => Operation::Addu16,
        0x18 => Operation::Cmp,
        0x19 => Operation::Cmpu,
        0x1A => Operation::Neg,
        0x1B => Operation::Negu,
        0x1C => Operation::Sl,
        0x1D => Operation::Slu,
        0x1E => Operation::Sr,
        0x1F => Operation::Sru,
        _ => Operation::Mul,
    }
}
