// The archive for C: each function of crate moss_flash that C calls, as an export of its name that promises the same.
// include/moss_flash.h declares them.
#![tactic(auto)]

mod asked_c;
mod plan_c;
mod settings_c;
mod starts_c;
mod table_c;
