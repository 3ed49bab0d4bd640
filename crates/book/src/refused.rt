// Why a call of a book is refused.

#[derive(Clone, Copy, Debug, PartialEq, Eq)]
pub enum CloseRefusal {
    // the notice of a month is out
    NoticeOut,
    // all twelve months are settled
    YearSettled,
    WrongSlotCount,
    // the first slot that cannot be assessed, from 0
    UnfitSlot(usize),
}

#[derive(Clone, Copy, Debug, PartialEq, Eq)]
pub enum SettleRefusal {
    // no notice is out, or another one
    OtherNotice,
}

#[derive(Clone, Copy, Debug, PartialEq, Eq)]
pub enum ObjectRefusal {
    // no notice is out, or another one
    OtherNotice,
    // the month has had its 99 issues
    LastIssue,
}

#[derive(Clone, Copy, Debug, PartialEq, Eq)]
pub enum ReadLineRefusal {
    // the month is neither settled nor under notice
    NoLine,
}

#[derive(Clone, Copy, Debug, PartialEq, Eq)]
pub enum PrintLineRefusal {
    // the month is neither settled nor under notice
    NoLine,
    // the buffer is shorter than the longest statement line can be
    ShortBuffer,
}
