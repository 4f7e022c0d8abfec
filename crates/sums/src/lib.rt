// Sums and lists over the numbers below a bound: definitions and laws alone.
