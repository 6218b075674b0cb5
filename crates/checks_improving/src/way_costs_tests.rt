mod bounds;
mod noise;
