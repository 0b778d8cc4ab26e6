// The tools over a desk in memory, and the records of a log.
mod answers;
mod conversions;
mod live_blocks;
mod logs;
mod readable_texts;
mod records;
mod scripts;
