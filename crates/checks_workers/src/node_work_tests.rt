mod ending;
mod refining;
mod roots;
