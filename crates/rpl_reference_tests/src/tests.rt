mod endings;
mod faults;
mod generated;
mod made;
mod names;
mod plain_check;
mod shown;
