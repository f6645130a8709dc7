mod disturbed_updates;
mod explicit_settings;
mod frozen_statistics;
mod lane_changes;
mod lane_pages;
mod link_tests;
mod lost_bodies;
mod updates;
