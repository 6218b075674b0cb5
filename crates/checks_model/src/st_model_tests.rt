mod branch_tests;
mod instance_tests;
mod tree_tests;
mod vertex_lists_tests;
mod vertex_set_tests;
