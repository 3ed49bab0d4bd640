// A run under way.
use book::book::Book;
use year_file::contents::Contents;

// The book that is being settled, and where the bodies of its months stand.
#[derive(Drop)]
pub struct Run {
    pub book: Book,
    pub contents: Contents,
}
