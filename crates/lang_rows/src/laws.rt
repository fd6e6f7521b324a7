//! Laws that other crates can call.
use go_check::law::{law_by_summaries, law_one_check, law_some_check};
use go_init::law::{law_depends, law_package_order, law_variable_order};
use go_package::law::{
    law_fault_or_typed, law_fault_within, law_one_fault, law_one_typed, law_some_facts,
    law_some_fault,
};

pub(crate) fn call_laws() {
    law_package_order();
    law_depends();
    law_variable_order();
    law_one_fault();
    law_fault_within();
    law_some_facts();
    law_some_fault();
    law_fault_or_typed();
    law_one_typed();
    law_one_check();
    law_some_check();
    law_by_summaries();
}
