// What a source answers, and what a call that makes one does.
use codec::Row;
use refusal::Refusal;
use source::Source;

// The number of the refusal, as a controller reports it, or 0 where a source was made.
pub fn verdict<T: Drop>(made: Result<T, Refusal>) -> u8 {
    match made {
        Ok(_) => 0,
        Err(refusal) => refusal.number(),
    }
}

// Three rows of a source.
pub fn rows_at<S: Source>(source: &S, places: [u16; 3]) -> [Option<Row>; 3] {
    places.map(|i| source.row(i))
}
