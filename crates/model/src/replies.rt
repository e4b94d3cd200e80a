// The numbers of the replies, by name: the one place in code where they stand. Consts beside the enum: a match on a number wants them.
ghost use Rattle.std.specs.Prelude.{◌≡◌};
ghost use Rattle.model.specs.Numbers.{NumberIs, ReplyIs, reply_of};

use super::Reply;

pub const DONE: u64 = 0;

pub const NOT_ADMISSIBLE: u64 = 1;

pub const WINDOW_RULE: u64 = 2;

pub const NO_ARM: u64 = 3;

pub const NAMED_TRAP: u64 = 4;

pub const NO_SPECIAL: u64 = 5;

pub const MISSING: u64 = 6;

pub const PUT_UNKNOWN: u64 = 7;

pub const PUT_PRIVILEGED: u64 = 8;

pub const PUT_ILLEGAL: u64 = 9;

pub const PUT_THRESHOLD: u64 = 10;

pub const PUT_STATUS: u64 = 11;

pub const MISPLACED: u64 = 12;

pub const SAVE_LOCAL: u64 = 13;

pub const SAVED_THRESHOLD: u64 = 14;

pub const SAVED_STATUS: u64 = 15;

pub const SAVED_COUNT: u64 = 16;

pub const SYNC_PRIVILEGED: u64 = 17;

pub const SYNC_ILLEGAL: u64 = 18;

pub const NOT_LOADED: u64 = 19;

pub const TRAPPED: u64 = 20;

pub const OUT_OF_REACH: u64 = 21;

pub const SHARED: u64 = 22;

pub const ACROSS: u64 = 23;

pub const NOT_FETCHED: u64 = 24;

pub const GRANT_TOO_LARGE: u64 = 25;

pub const STORE_TOO_SHORT: u64 = 26;

pub const NO_POINT: u64 = 27;

pub const OTHER_POINT: u64 = 28;

pub const NO_FRAME: u64 = 29;

pub const TOO_MANY_PAIRS: u64 = 30;

pub const HIDDEN: u64 = 31;

pub const FOREIGN: u64 = 32;

pub const TASKS_RULE: u64 = 33;

impl From<Reply> for u64 {
    ghost from_gives = { NumberIs };

    /// The number of a reply.
    #[tactic(auto, unfolding(crate::specs::Numbers::number_of))]
    fn from(reply: Reply) -> u64 {
        match reply {
            Reply::Done => DONE,
            Reply::NotAdmissible => NOT_ADMISSIBLE,
            Reply::WindowRule => WINDOW_RULE,
            Reply::NoArm => NO_ARM,
            Reply::NamedTrap => NAMED_TRAP,
            Reply::NoSpecial => NO_SPECIAL,
            Reply::Missing => MISSING,
            Reply::PutUnknown => PUT_UNKNOWN,
            Reply::PutPrivileged => PUT_PRIVILEGED,
            Reply::PutIllegal => PUT_ILLEGAL,
            Reply::PutThreshold => PUT_THRESHOLD,
            Reply::PutStatus => PUT_STATUS,
            Reply::Misplaced => MISPLACED,
            Reply::SaveLocal => SAVE_LOCAL,
            Reply::SavedThreshold => SAVED_THRESHOLD,
            Reply::SavedStatus => SAVED_STATUS,
            Reply::SavedCount => SAVED_COUNT,
            Reply::SyncPrivileged => SYNC_PRIVILEGED,
            Reply::SyncIllegal => SYNC_ILLEGAL,
            Reply::NotLoaded => NOT_LOADED,
            Reply::Trapped => TRAPPED,
            Reply::OutOfReach => OUT_OF_REACH,
            Reply::Shared => SHARED,
            Reply::Across => ACROSS,
            Reply::NotFetched => NOT_FETCHED,
            Reply::GrantTooLarge => GRANT_TOO_LARGE,
            Reply::StoreTooShort => STORE_TOO_SHORT,
            Reply::NoPoint => NO_POINT,
            Reply::OtherPoint => OTHER_POINT,
            Reply::NoFrame => NO_FRAME,
            Reply::TooManyPairs => TOO_MANY_PAIRS,
            Reply::Hidden => HIDDEN,
            Reply::Foreign => FOREIGN,
            Reply::TasksRule => TASKS_RULE,
        }
    }
}

/// A number that is no reply's.
#[derive(Clone, Copy, PartialEq, Eq, Debug)]
pub struct NoReply(pub u64);

impl TryFrom<u64> for Reply {
    type Error = NoReply;

    ghost try_from_gives = { ReplyIs };

    /// The reply of a number, 0 to 33.
    #[tactic(auto, unfolding(crate::specs::Numbers::number_of))]
    fn try_from(number: u64) -> Result<Reply, NoReply> {
        match number {
            DONE => Ok(Reply::Done),
            NOT_ADMISSIBLE => Ok(Reply::NotAdmissible),
            WINDOW_RULE => Ok(Reply::WindowRule),
            NO_ARM => Ok(Reply::NoArm),
            NAMED_TRAP => Ok(Reply::NamedTrap),
            NO_SPECIAL => Ok(Reply::NoSpecial),
            MISSING => Ok(Reply::Missing),
            PUT_UNKNOWN => Ok(Reply::PutUnknown),
            PUT_PRIVILEGED => Ok(Reply::PutPrivileged),
            PUT_ILLEGAL => Ok(Reply::PutIllegal),
            PUT_THRESHOLD => Ok(Reply::PutThreshold),
            PUT_STATUS => Ok(Reply::PutStatus),
            MISPLACED => Ok(Reply::Misplaced),
            SAVE_LOCAL => Ok(Reply::SaveLocal),
            SAVED_THRESHOLD => Ok(Reply::SavedThreshold),
            SAVED_STATUS => Ok(Reply::SavedStatus),
            SAVED_COUNT => Ok(Reply::SavedCount),
            SYNC_PRIVILEGED => Ok(Reply::SyncPrivileged),
            SYNC_ILLEGAL => Ok(Reply::SyncIllegal),
            NOT_LOADED => Ok(Reply::NotLoaded),
            TRAPPED => Ok(Reply::Trapped),
            OUT_OF_REACH => Ok(Reply::OutOfReach),
            SHARED => Ok(Reply::Shared),
            ACROSS => Ok(Reply::Across),
            NOT_FETCHED => Ok(Reply::NotFetched),
            GRANT_TOO_LARGE => Ok(Reply::GrantTooLarge),
            STORE_TOO_SHORT => Ok(Reply::StoreTooShort),
            NO_POINT => Ok(Reply::NoPoint),
            OTHER_POINT => Ok(Reply::OtherPoint),
            NO_FRAME => Ok(Reply::NoFrame),
            TOO_MANY_PAIRS => Ok(Reply::TooManyPairs),
            HIDDEN => Ok(Reply::Hidden),
            FOREIGN => Ok(Reply::Foreign),
            TASKS_RULE => Ok(Reply::TasksRule),
            _ => Err(NoReply(number)),
        }
    }
}

/// The reply of a number; of one above 33, which is no reply's, `Done`.
pub fn reply_of(number: u64) -> Reply
    ensures { result ≡ reply_of number }
{
    match Reply::try_from(number) {
        Ok(reply) => reply,
        Err(_) => Reply::Done,
    }
}
