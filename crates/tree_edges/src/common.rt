// What the tests share.
use inputs::pair;
use operator::{Answer, Operator};
use refusal::Refusal;

// A step that answers a row of two cells.
pub fn pair_answer(a: i32, b: i32) -> Answer {
    Answer::Row(pair(a, b))
}

// Four steps.
pub fn four_steps<O: Operator>(tree: &mut O) -> [Answer; 4] {
    [tree.step(), tree.step(), tree.step(), tree.step()]
}

// What a save into the first bytes of a buffer of nines answers, and the buffer after it.
pub fn saved<O: Operator>(tree: &O, room: usize) -> (Result<usize, Refusal>, [u8; 12]) {
    let mut buffer = [9; 12];
    (tree.save(&[], &mut buffer[0..room.min(12)]), buffer)
}

// What writing the plan likewise answers, and the buffer after it.
pub fn planned<O: Operator>(tree: &O, room: usize) -> (Result<usize, Refusal>, [u8; 12]) {
    let mut buffer = [9; 12];
    (tree.write_plan(&mut buffer[0..room.min(12)]), buffer)
}

// What the load of a record answers, one step after the beginning, and the step after it.
pub fn taken_up<O: Operator>(tree: &mut O, record: &[u8]) -> (Result<(), Refusal>, Answer) {
    tree.rewind();
    tree.step();
    (tree.load(record), tree.step())
}
