// What can be had, or done, without a move of the machine of plain awk for each part, since the parts are there as
// variables, fields and constants are. All else is done the general way, which alone meets faults and takes requests.

pub mod assignments;
pub mod elements;
pub mod growth;
pub mod records;
pub mod tests;
pub mod texts;
pub mod values;
