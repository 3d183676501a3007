//! Counted readers and writers: what they pass on, and what they count. Also the texts of errors.
mod device;
mod faults;
mod reading;
mod writing;
