mod bank_0;
mod bench;
mod case;
mod power;
mod stops;
mod submits;
