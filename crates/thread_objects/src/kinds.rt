//! The kinds of objects, a file each: how one begins, and the calls on one.
mod cond;
mod flight;
mod mutex;
mod once;
mod once_func;
mod once_parts;
mod once_value;
mod rw_mutex;
mod sema;
mod wait_group;
