mod sim_bus;
mod unit;
