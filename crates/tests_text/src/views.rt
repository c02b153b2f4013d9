// What no clause says: the views at work, on texts and with values that are written by hand.
mod asked;
mod lent;
mod rows;
mod shown;
