mod ascending;
mod extending;
mod fixing;
mod freeing;
