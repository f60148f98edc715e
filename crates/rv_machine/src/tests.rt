mod cases;
mod fixture;
mod steps;
mod two_harts;
