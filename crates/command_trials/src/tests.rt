mod fault_lines;
mod fetching;
mod metrics;
mod reads;
mod runs;
mod writes;
