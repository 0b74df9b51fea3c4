// The kinds of nodes and of locks. A byte that is no kind's number stands as it is.
ghost use Rattle.table.specs.Kinds.{IsNodeKind, IsLockKind};

use crate::Table;

#[derive(Clone, Copy, Debug, PartialEq, Eq)]
pub enum NodeKind {
    Task,
    Preemptive,
    NonPreemptive,
    Fifo,
    TimeSliced,
    Unlisted(u8),
}

#[derive(Clone, Copy, Debug, PartialEq, Eq)]
pub enum LockKind {
    Blocking,
    Mask,
    Unlisted(u8),
}

impl From<u8> for NodeKind {
    ghost from_gives = { IsNodeKind };

    #[tactic(auto, unfolding(crate::specs::Kinds::node_kind))]
    fn from(number: u8) -> NodeKind {
        match number {
            Table::TASK => NodeKind::Task,
            Table::PREEMPTIVE => NodeKind::Preemptive,
            Table::NON_PREEMPTIVE => NodeKind::NonPreemptive,
            Table::FIFO => NodeKind::Fifo,
            Table::TIME_SLICED => NodeKind::TimeSliced,
            _ => NodeKind::Unlisted(number),
        }
    }
}

impl From<u8> for LockKind {
    ghost from_gives = { IsLockKind };

    #[tactic(auto, unfolding(crate::specs::Kinds::lock_kind))]
    fn from(number: u8) -> LockKind {
        match number {
            Table::BLOCKING => LockKind::Blocking,
            Table::MASK => LockKind::Mask,
            _ => LockKind::Unlisted(number),
        }
    }
}
