#![tactic(auto)]
// What a clerk is told of a station file: the station as it was read, and of a refused one which number is wrong, what the file has and what
// would be right. Places, widths, ranges and words of its numbers are those of the one table in `station_fields`. No call answers anything,
// and no rule stands here.
pub mod as_read;
pub mod body_faults;
pub mod contents_faults;
mod numbers;
mod ranges;
mod row_faults;
mod rows;
