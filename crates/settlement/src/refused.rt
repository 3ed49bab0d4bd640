// Why a run ends before the year is settled.
use book::refused::CloseRefusal;
use terms::refusals::PriceRefusal;
use terms_file::refusals::TermsRefusal;
use year_file::body::BodyRefusal;
use year_file::contents::ContentsRefusal;

// The refusal of the call that ended it. Bodies and closes have their month.
#[derive(Clone, Copy, Debug, PartialEq, Eq)]
pub enum RunRefusal {
    Terms(TermsRefusal),
    Price(PriceRefusal),
    Contents(ContentsRefusal),
    Body(u8, BodyRefusal),
    // bytes stand after the body of the last month
    BytesAfter,
    Close(u8, CloseRefusal),
}
